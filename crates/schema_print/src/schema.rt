//! The TOML text of a schema: every key of a table but those of what is not there.
//! It stands on the printer of `toml`, whose text reads back as the table.

ghost use Rattle.std.specs.Prelude.{◌≡◌, ◌≤◌, ℕ, List, IfOk, Ok};
ghost use Rattle.toml.specs.View.{table_view};
ghost use Rattle.schema_toml.specs.Text.{schema_of_text};
ghost use Rattle.schema_print.specs.Levels.{levels_of_schema};
ghost use Rattle.schema_print.specs.Written.{schema_members};

use crate::table::{put_list, put_one};
use sbe_schema::Schema;
use sbe_value::Lines;
use std::alloc::{AllocError, Global};
use toml::Table;

/// The table that a schema is written as.
fn schema_table(alloc: Global, schema: &Schema) -> Result<Table, AllocError>
    ensures { IfOk result (λ t. table_view t ≡ schema_members schema.now) }
{
    let table = put_one(alloc, Table::new(alloc), "id", &schema.id)?;
    let table = put_one(alloc, table, "version", &schema.version)?;
    let table = put_one(alloc, table, "order", &schema.order)?;
    let table = put_list(alloc, table, "type", schema.types.as_slice())?;
    put_list(alloc, table, "message", schema.messages.as_slice())
}

/// The TOML text of a schema. A text that spells this schema is given for every schema that some text spells
/// and whose groups lie at most 16 deep; of any other schema nothing is claimed.
///
/// # Errors
/// Want of memory.
pub fn print_schema(alloc: Global, schema: &Schema) -> Result<Lines, AllocError>
    ensures back { IfOk result (λ lines. (text : List ℕ) → schema_of_text text ≡ Ok schema.now → levels_of_schema schema.now ≤ 16 → schema_of_text lines ≡ Ok schema.now) }
{
    let table = schema_table(alloc, schema)?;
    match toml::table_to_string(alloc, &table) {
        Ok(text) => Ok(Lines::from(text.into_bytes())),
        Err(_) => Err(AllocError),
    }
}

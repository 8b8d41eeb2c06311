//! The schema that a text spells.

ghost use Rattle.std.specs.Prelude.{◌≡◌};
ghost use Rattle.toml.specs.View.{view};
ghost use Rattle.toml_walk.specs.Reading.{Reads};
ghost use Rattle.schema_toml.specs.Text.{schema_of, schema_of_text};

use crate::messages::{GREATEST_ID, Messages};
use crate::types::Types;
use crate::words::Orders;
use sbe_prim::Order;
use sbe_schema::{MessageDefs, Schema, TypeDefs};
use std::alloc::Global;
use toml::Value;
use toml_walk::{
    TomlFault, deny_unknown_keys, get_or_default, list_or_empty, natural_at, read_document,
    required_list,
};

/// The greatest version.
const GREATEST_VERSION: u64 = 65534;

/// The schema that a table spells.
fn read_table(alloc: Global, keys: &Value) -> Result<Schema, TomlFault>
    ensures { Reads result (schema_of (view keys.now)) }
{
    let id = natural_at(alloc, keys, "id", 0, GREATEST_ID)?;
    let version = natural_at(alloc, keys, "version", 0, GREATEST_VERSION)?;
    let order = get_or_default::<Orders>(alloc, (), keys, "order", Order::Little)?;
    let types = list_or_empty::<Types>(alloc, (), keys, "type")?;
    let messages = required_list::<Messages>(alloc, (), keys, "message")?;
    deny_unknown_keys(alloc, keys, &["id", "version", "order", "type", "message"])?;
    Ok(Schema {
        id: id as u16,
        version: version as u16,
        order,
        types: TypeDefs::from(types),
        messages: MessageDefs::from(messages),
    })
}

/// The schema that a text spells.
///
/// # Errors
/// `Text` exactly where the text is no TOML document, and else the first fault in the order in which its keys
/// are visited: at each key `Missing`, `WrongKind`, `Range` and what lies at it, and behind the last key of a
/// table `UnknownKey` of the least other one.
pub fn read_schema(alloc: Global, text: &[u8]) -> Result<Schema, TomlFault>
    ensures { Reads result (schema_of_text text.now) }
{
    let keys = read_document(alloc, text)?;
    read_table(alloc, &keys)
}

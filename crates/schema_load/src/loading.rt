//! The schema that a configuration text spells, checked, and the plan of its messages.

ghost use Rattle.std.specs.Prelude.{◌≡◌, ◌<◌, length, Err, IfOk};
ghost use Rattle.sbe_schema.specs.Checked.{fault_of};
ghost use Rattle.schema_toml.specs.Faults.{Tells, text_limit};
ghost use Rattle.sbe_layout.specs.Legal.{LegalPlan};
ghost use Rattle.schema_load.specs.Load.{plan_of_text, plan_unless, checked_of_text, schema_unless, seen_by, schema_in, plan_in};

use sbe_layout::{Plan, lay_out};
use sbe_schema::{Checked, Schema, check};
use schema_toml::{ConfigFault, TEXT_LIMIT, TomlFault, read_schema};
use std::alloc::Global;

/// The plan of the messages of the schema that a text spells.
///
/// # Errors
/// `TooLong` exactly where the text is longer than `TEXT_LIMIT`, before anything else is said of it; else `Toml`
/// with the first fault of its text; else `Schema` with the least rule of schemas that it breaks, at its first
/// place. Want of memory is a fault that `ConfigFault::is_memory` knows.
pub fn load(alloc: Global, text: &[u8]) -> Result<Plan, ConfigFault>
    ensures exact { Tells result (plan_of_text text.now) }
    ensures too_long { text_limit < length text.now → result ≡ Err ConfigFault.TooLong }
    ensures legal { IfOk result LegalPlan }
{
    let schema = load_checked(alloc, text)?;
    match lay_out(alloc, &schema) {
        Ok(plan) => Ok(plan),
        Err(_) => Err(ConfigFault::Toml(TomlFault::Memory)),
    }
}

/// The schema that a text spells, checked: what `load` lays out.
///
/// # Errors
/// As `load`.
pub fn load_checked(alloc: Global, text: &[u8]) -> Result<Checked, ConfigFault>
    ensures schema { Tells (seen_by schema_in result) (checked_of_text text.now) }
    ensures plan { Tells (seen_by plan_in result) (plan_of_text text.now) }
    ensures too_long { text_limit < length text.now → result ≡ Err ConfigFault.TooLong }
{
    if text.len() > TEXT_LIMIT {
        return Err(ConfigFault::TooLong);
    }
    match read_schema(alloc, text) {
        Ok(schema) => check_schema(alloc, schema),
        Err(fault) => Err(ConfigFault::Toml(fault)),
    }
}

// A schema, if it breaks no rule.
fn check_schema(alloc: Global, schema: Schema) -> Result<Checked, ConfigFault>
    ensures schema { Tells (seen_by schema_in result) (schema_unless schema (fault_of schema)) }
    ensures plan { Tells (seen_by plan_in result) (plan_unless schema (fault_of schema)) }
{
    match check(alloc, schema) {
        Ok(checked) => Ok(checked),
        Err((_schema, fault)) => Err(ConfigFault::Schema(fault)),
    }
}

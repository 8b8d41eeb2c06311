//! The schema of a text, as a command reads it.

use cmd_base::Configured;
use sbe_schema::Checked;
use schema_load::load_checked;
use schema_toml::ConfigFault;
use std::alloc::Global;

/// The schema that a text spells, which breaks no rule.
#[derive(Drop)]
pub struct Spelled {
    pub checked: Checked,
}

impl Configured for Spelled {
    ghost use Rattle.schema_types.specs.declared.schema.Schema as schemas;
    ghost use Rattle.schema_toml.specs.Text.{schema_of_text};
    ghost use Rattle.schema_load.specs.Load.{schema_of_read};

    type For = ();

    ghost Told = { schemas.Schema };

    ghost told = { λ spelled. spelled.checked.schema };

    ghost reading = { λ _ text. schema_of_read (schema_of_text text) };

    ghost is_valid = { λ _. Unit {0} };

    fn read(alloc: Global, _wanted: (), text: &[u8]) -> Result<Spelled, ConfigFault> {
        match load_checked(alloc, text) {
            Ok(checked) => Ok(Spelled { checked }),
            Err(fault) => Err(fault),
        }
    }
}

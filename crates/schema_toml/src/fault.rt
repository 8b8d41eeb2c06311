//! Why a configuration was refused.

ghost use Rattle.std.specs.Prelude.{◌≡◌};
ghost use Rattle.schema_toml.specs.Faults.{is_memory};

use sbe_schema::{SchemaFault, SchemaKind};
use toml_walk::TomlFault;

/// The greatest configuration text, in bytes.
pub const TEXT_LIMIT: usize = 1 << 20;

/// Why a configuration was refused.
#[derive(Debug, Drop)]
pub enum ConfigFault {
    /// Its text spells none.
    Toml(TomlFault),
    /// The schema that it spells breaks a rule.
    Schema(SchemaFault),
    /// It is longer than 1,048,576 bytes.
    TooLong,
}

impl ConfigFault {
    /// Whether memory ran out before more was known.
    pub fn is_memory(&self) -> bool
        ensures { result ≡ is_memory self.now }
    {
        match self {
            ConfigFault::Toml(fault) => fault.is_memory(),
            ConfigFault::Schema(fault) => matches!(fault.kind, SchemaKind::Memory),
            ConfigFault::TooLong => false,
        }
    }
}

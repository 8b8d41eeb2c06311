//! How a comparison of two schemas ended: the status that is printed, and that the program exits with.

ghost use Rattle.std.specs.Prelude.{◌≡◌};

use sbe_value::Path;
use schema_toml::ConfigFault;
use thiserror::Error;

/// One of the two texts.
#[derive(Clone, Copy, Debug, PartialEq, Eq)]
pub enum Text {
    /// NEW, which is read first.
    Newer,
    /// OLD.
    Older,
}

/// How a comparison of two schemas ended.
#[derive(Debug, Drop, Error)]
pub enum Outcome {
    /// The schema of NEW extends that of OLD, and the line was written.
    #[error("done")]
    Extends,
    /// A text is no schema: the first such text, its fault and the fault's place.
    #[error("config: NEW or OLD is no schema")]
    Config {
        text: Text,
        fault: ConfigFault,
    },
    /// A text could not be read.
    #[error("input: NEW or OLD could not be read")]
    InputFault {
        text: Text,
    },
    /// OUT could not be written.
    #[error("output: OUT could not be written")]
    OutputFault,
    /// The schema of NEW does not extend that of OLD; this is where they differ first, and the line was written.
    #[error("the schema of NEW does not extend that of OLD")]
    Differs {
        /// The place of the first difference, as `message[0].fields[1]`; empty for the whole.
        path: Path,
    },
    /// Want of memory.
    #[error("out of memory")]
    Memory,
}

impl Outcome {
    ghost use Rattle.cmd_extends.specs.Promise.{code_of, name_of};

    /// The number that the program exits with.
    pub fn code(&self) -> u8
        ensures { result ≡ code_of self.now }
    {
        match self {
            Outcome::Extends => 0,
            Outcome::Config { .. } => 2,
            Outcome::InputFault { .. } => 3,
            Outcome::OutputFault => 4,
            Outcome::Differs { .. } => 12,
            Outcome::Memory => 14,
        }
    }

    /// The word that the status line gives.
    pub fn name(&self) -> &'static str
        ensures { result.now ≡ name_of self.now }
    {
        match self {
            Outcome::Extends => "done",
            Outcome::Config { .. } => "config",
            Outcome::InputFault { .. } => "input-fault",
            Outcome::OutputFault => "output-fault",
            Outcome::Differs { .. } => "message",
            Outcome::Memory => "memory",
        }
    }
}

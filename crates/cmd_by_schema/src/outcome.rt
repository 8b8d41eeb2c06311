//! How a run ended: the status that is printed, and that the program exits with.

ghost use Rattle.std.specs.Prelude.{◌≡◌};

use schema_toml::ConfigFault;
use thiserror::Error;

/// One of the two texts.
#[derive(Clone, Copy, Debug, PartialEq, Eq)]
pub enum Text {
    /// SCHEMA, which is read first.
    Schema,
    /// The lines.
    Lines,
}

/// How a run ended; `W` is why a line is refused.
#[derive(Debug, Drop, Error)]
pub enum Outcome<W> {
    /// All lines were taken, and what they make was written.
    #[error("done")]
    Done,
    /// SCHEMA is no schema: the fault, and its place.
    #[error("config: SCHEMA is no schema")]
    Config(ConfigFault),
    /// A text could not be read.
    #[error("input: a text could not be read")]
    InputFault { text: Text },
    /// OUT could not be written.
    #[error("output: OUT could not be written")]
    OutputFault,
    /// The line of this number, from 1 on, is refused; what those before it make was written.
    #[error("message: a line is refused")]
    Refused { line: u64, wrong: W },
    /// Want of memory.
    #[error("out of memory")]
    Memory,
}

impl<W> Outcome<W> {
    ghost use Rattle.cmd_by_schema.specs.Outcomes.{code_of, name_of};

    /// The number that the program exits with.
    pub fn code(&self) -> u8
        ensures { result ≡ code_of self.now }
    {
        match self {
            Outcome::Done => 0,
            Outcome::Config(_) => 2,
            Outcome::InputFault { .. } => 3,
            Outcome::OutputFault => 4,
            Outcome::Refused { .. } => 12,
            Outcome::Memory => 14,
        }
    }

    /// The word that the status line gives.
    pub fn name(&self) -> &'static str
        ensures { result.now ≡ name_of self.now }
    {
        match self {
            Outcome::Done => "done",
            Outcome::Config(_) => "config",
            Outcome::InputFault { .. } => "input-fault",
            Outcome::OutputFault => "output-fault",
            Outcome::Refused { .. } => "message",
            Outcome::Memory => "memory",
        }
    }
}

//! How a dump ended: the status that is printed, and that the program exits with.

ghost use Rattle.std.specs.Prelude.{◌≡◌};

use schema_toml::ConfigFault;
use thiserror::Error;

/// One of the two inputs.
#[derive(Clone, Copy, Debug)]
pub enum Origin {
    /// SCHEMA, which is read first.
    Schema,
    /// INPUT.
    Input,
}

/// How a dump ended. Places are counted from 0 in bytes of INPUT.
#[derive(Debug, Drop, Error)]
pub enum Outcome {
    /// Each frame was whole, and the lines of all of them were written.
    #[error("done")]
    Done,
    /// SCHEMA is no schema: the fault, and its place.
    #[error("config: SCHEMA is no schema")]
    Config(ConfigFault),
    /// An input could not be read.
    #[error("input: SCHEMA or INPUT could not be read")]
    InputFault { origin: Origin },
    /// OUT could not be written.
    #[error("output: OUT could not be written")]
    OutputFault,
    /// INPUT ends inside the frame at this place; what stands before it was written.
    #[error("the input ends inside the frame at byte {at}")]
    Cut { at: u64 },
    /// The bytes at this place begin no frame; what stands before them was written.
    #[error("no frame begins at byte {at}")]
    Broken { at: u64 },
    /// Want of memory.
    #[error("out of memory")]
    Memory,
}

impl Outcome {
    ghost use Rattle.cmd_dump.specs.Promise.{code_of, name_of};

    /// The number that the program exits with.
    pub fn code(&self) -> u8
        ensures { result ≡ code_of self.now }
    {
        match self {
            Outcome::Done => 0,
            Outcome::Config(_) => 2,
            Outcome::InputFault { .. } => 3,
            Outcome::OutputFault => 4,
            Outcome::Cut { .. } | Outcome::Broken { .. } => 12,
            Outcome::Memory => 14,
        }
    }

    /// The word that the status line gives.
    pub fn name(&self) -> &'static str
        ensures { result.now ≡ name_of self.now }
    {
        match self {
            Outcome::Done => "done",
            Outcome::Config(_) => "config",
            Outcome::InputFault { .. } => "input-fault",
            Outcome::OutputFault => "output-fault",
            Outcome::Cut { .. } | Outcome::Broken { .. } => "message",
            Outcome::Memory => "memory",
        }
    }
}

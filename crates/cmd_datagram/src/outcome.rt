//! How a run of `datagram` ended: the status that is printed, and that the program exits with.

ghost use Rattle.std.specs.Prelude.{◌≡◌};

use schema_toml::ConfigFault;
use thiserror::Error;

/// How a run ended.
#[derive(Debug, Drop, Error)]
pub enum Outcome {
    /// All listed datagrams were delivered, and the lines were written.
    #[error("done")]
    Done,
    /// CONFIG is no script: the fault, and its place.
    #[error("config: CONFIG is no script")]
    Config(ConfigFault),
    /// CONFIG could not be read.
    #[error("input: CONFIG could not be read")]
    InputFault,
    /// OUT could not be written.
    #[error("output: OUT could not be written")]
    OutputFault,
    /// Want of memory.
    #[error("out of memory")]
    Memory,
}

impl Outcome {
    ghost use Rattle.cmd_datagram.specs.Promise.{code_of, name_of};

    /// The number that the program exits with.
    pub fn code(&self) -> u8
        ensures { result ≡ code_of self.now }
    {
        match self {
            Outcome::Done => 0,
            Outcome::Config(_) => 2,
            Outcome::InputFault => 3,
            Outcome::OutputFault => 4,
            Outcome::Memory => 14,
        }
    }

    /// The word that the status line gives.
    pub fn name(&self) -> &'static str
        ensures { result.now ≡ name_of self.now }
    {
        match self {
            Outcome::Done => "done",
            Outcome::Config(_) => "config",
            Outcome::InputFault => "input-fault",
            Outcome::OutputFault => "output-fault",
            Outcome::Memory => "memory",
        }
    }
}

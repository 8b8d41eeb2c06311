//! How a run of `muxanswer` ended: the status that is printed, and that the program exits with.

ghost use Rattle.std.specs.Prelude.{◌≡◌};

use crate::unrouted::Unrouted;
use schema_toml::ConfigFault;
use thiserror::Error;

/// How a run ended. Places are in bytes of INPUT, from 0.
#[derive(Debug, Drop, Error)]
pub enum Outcome {
    /// All of INPUT was answered.
    #[error("done")]
    Done,
    /// CONFIG has no sessions that could be answered: the fault, and its place.
    #[error("config: CONFIG is none of this command's")]
    Config(ConfigFault),
    /// CONFIG or INPUT could not be read.
    #[error("input: CONFIG or INPUT could not be read")]
    InputFault,
    /// WIRE or OUT could not be written.
    #[error("output: WIRE or OUT could not be written")]
    OutputFault,
    /// INPUT ends inside the frame at this place; what came before it was answered.
    #[error("input: the input ends inside the frame at byte {at}")]
    Cut { at: u64 },
    /// No session can be given what stands at this place; what came before it was answered.
    #[error("input: no session can be given what stands at byte {at}")]
    Mux { at: u64, why: Unrouted },
    /// Want of memory.
    #[error("out of memory")]
    Memory,
}

impl Outcome {
    ghost use Rattle.cmd_muxanswer.specs.Promise.{code_of, name_of};

    /// The number that the program exits with.
    pub fn code(&self) -> u8
        ensures { result ≡ code_of self.now }
    {
        match self {
            Outcome::Done => 0,
            Outcome::Config(_) => 2,
            Outcome::InputFault => 3,
            Outcome::OutputFault => 4,
            Outcome::Cut { .. } | Outcome::Mux { .. } => 12,
            Outcome::Memory => 14,
        }
    }

    /// The word that the status line gives.
    pub fn name(&self) -> &'static str
        ensures { result.now ≡ name_of self.now }
    {
        match self {
            Outcome::Done => "done",
            Outcome::Config(_) => "config",
            Outcome::InputFault => "input-fault",
            Outcome::OutputFault => "output-fault",
            Outcome::Cut { .. } | Outcome::Mux { .. } => "message",
            Outcome::Memory => "memory",
        }
    }
}

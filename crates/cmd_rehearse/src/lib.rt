//! The commands `rehearse` and `soak`: two ends of a session in memory, run by a script, and what both hold behind it. Relies on
//! `cmd_script` for the script, on `gw_rehearse` for the run, and on `cmd_base` for reading a text.
#![tactic(auto)]

mod command;
mod lines;
mod outcome;
mod soaking;

pub use cmd_soak::SOAK;
pub use command::{RehearseDevices, run_rehearsal};
pub use outcome::Outcome;
pub use soaking::run_soak;

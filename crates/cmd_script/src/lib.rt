//! The script of a rehearsal as a TOML text: what two ends send each other, and when their connections are cut.
//! It stands on the walk over keys and on the configuration of a session, whose first keys it has too.
#![tactic(auto)]

mod script;
mod steps;

pub use script::{Counts, Load, MESSAGES, Script, read_script};
pub use steps::{ACTION_WORDS, COUNT, END_WORDS, PICK_WORDS, Step, Steps};

//! The receiving end of an idempotent flow: which numbers are jumped over, which are applied, and the runs of consecutive
//! numbers that are still to be told as applied. It relies on the ranges of `fixp_msgs` and the growth of `session_model`.
#![tactic(auto)]

mod applied;
mod laws;
mod runs;
mod step;

pub use applied::Applied;
pub use laws::{follows_records, grows_idempotent, misses_the_jumps, runs_are_one, runs_are_whole};
pub use step::{after_message, jump_of};

//! Laws of two ends of one session that keep to the rules, over one link after another and whatever is cut: no connection between
//! them ends by a violation of phases, of numbers or behind a finish, and at rest each inbox awaits one past all that the other
//! end's outbox comes to have. Each function has an empty body; its clause is a statement about the definitions that the machine's
//! code meets.
#![tactic(auto)]

mod finishes;
mod numbers;
mod phases;
mod rest;

pub use finishes::{finished_holds, finishes_hold, only_time_ends, stays_known};
pub use numbers::{known_sample, numbered_holds, numbers_hold, numbers_sample};
pub use phases::{phases_hold, reader_expects, session_sample, versions_sample, writer_keeps};
pub use rest::{all_is_equal, over_has_all, quiet_has_all, rest_has_all, rest_sample, stays_ended};

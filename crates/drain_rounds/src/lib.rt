//! Laws of rounds of two ends of one session: what is left falls with each of them, and so many finish it. Each function has an empty body; its
//! clause is a statement.
#![tactic(auto)]

mod rounds;
mod samples;
mod starting;

pub use rounds::{drain_ends, drain_suffices, rounds_fall};
pub use samples::rounds_sample;
pub use starting::begins_show;

//! That the connections of two ends of one session end as finished. The function has an empty body; its clause is a statement.
#![tactic(auto)]

mod ends;

pub use ends::ends_finished;

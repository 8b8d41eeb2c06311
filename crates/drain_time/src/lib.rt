//! Laws of time on a connection of two ends of one session, whose rounds are a millisecond each: neither is ever late, so a drain ends both. Each function has an
//! empty body; its clause is a statement.
#![tactic(auto)]

mod times;

pub use times::{drain_finishes, rounds_finish, stays_in_time};

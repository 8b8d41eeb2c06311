//! Laws of two ends of one session as a rehearsal drives them: each of its moves keeps what is said of them between two of its steps, and a drain ends both as finished.
//! Each function has an empty body; its clause is a statement.
#![tactic(auto)]

mod pairs;

pub use pairs::{
    begins_joined, drain_finishes_both, loss_leaves_apart, more_is_seen, rounds_join,
    stop_leaves_apart,
};

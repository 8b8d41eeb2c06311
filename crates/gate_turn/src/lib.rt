//! A turn lock: callers take turns at one value by tickets, and each keeps a token, its pass, that knows the history.
//! Relies on `atomic_table` for the atomic steps and on `session_model` for entries and histories.
#![tactic(auto)]

mod lock;
mod logged;
mod makes;
mod pass;
mod passes;
mod plays;
mod rule;
mod turns;

pub use lock::{Held, TurnLock};
pub use logged::Logged;
pub use pass::Pass;
pub use passes::Passes;

//! Laws of rounds of two ends of one session, of any kind: heartbeats never add up, so no more is left to do at any moment of a connection than a drain
//! finishes. Each function has an empty body; its clause is a statement.
#![tactic(auto)]

mod beats;
mod quiet;

pub use beats::{beats_hold, drain_follows};
pub use quiet::quiet_within;

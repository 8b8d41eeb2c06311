//! The timers of a session: when a heartbeat is due, when the peer is silent, and when a handshake is late.
//! All moments are in milliseconds of one clock, which never goes back.
#![tactic(auto)]

mod timing;

pub use timing::{due, late, silent};

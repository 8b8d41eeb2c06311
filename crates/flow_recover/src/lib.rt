//! The receiving end of a recoverable flow: which messages are delivered, which are to be held, and which are missing.
//! It relies on the ranges of `fixp_msgs` and the numbering of `session_model`, and keeps numbers alone.
#![tactic(auto)]

mod laws;
mod numbers;

pub use laws::{delivers_chain, grows_recoverable};
pub use numbers::{Back, Numbers, REACH, Seen};

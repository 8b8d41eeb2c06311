//! Retransmission of a recoverable flow: which requests are answered, and what answers the own request.
//! It relies on the ranges of `fixp_msgs`, and keeps numbers alone.
#![tactic(auto)]

mod judging;
mod request;
mod requester;

pub use judging::{RetransmitCode, judge};
pub use request::Request;
pub use requester::{BadStart, Requester};

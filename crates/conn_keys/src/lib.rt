//! Whose a connection is: what its first frame gives, and a dialer that hands on only connections whose first frame gives a session's identifier and its
//! credentials. Relies on the framing, the grammar of session messages and the reply table, and does no input or output of its own.
#![tactic(auto)]

mod judging;
mod keys;
mod knowing;
mod laws;

pub use judging::{LOOKED_AT, Reject, Verdict, judge};
pub use keys::Keys;
pub use knowing::Knowing;
pub use laws::{few_wait, rejects_as_the_session, the_rows, verdicts_sample, verdicts_stand};

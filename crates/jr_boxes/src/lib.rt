//! What the outbox and the inbox of an end hold of records, counted and noted one record after another, and why a call of theirs
//! did not do what it was asked for. Relies on `jr_record` for records, on `session_model` for what a history and an inbox's list
//! say, and on `fixp_msgs` for what an application message is.
#![tactic(auto)]

mod faults;
mod notes;
mod tally;

pub use faults::{BoxFault, CloseFault, JournalCause, SubmitFault, Which};
pub use notes::Notes;
pub use tally::Tally;

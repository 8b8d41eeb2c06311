//! Whether the plans of a text go on from what an outbox holds of their senders, and the first line that does not. Relies on
//! `plan_text` for what a line gives, and on `jr_kept` for the entries of an outbox.
#![tactic(auto)]

mod front;
mod fronts;
mod laws;
mod lines;
mod past;

pub use laws::past_excludes;
pub use past::first_past;

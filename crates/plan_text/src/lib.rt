//! The plans of senders as lines of text, each of which gives a payload to a sender. Relies on `text_words` for the lines
//! of a text and for numbers in decimal, and on `hex`.
#![tactic(auto)]

mod fault;
mod laws;
mod line;
mod plans;

pub use fault::PlanFault;
pub use laws::one_reading;
pub use line::sender_of;
pub use plans::read_plans;

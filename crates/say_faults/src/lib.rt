//! What is wrong with INPUT, in lines for people: with a frame, with a message or a line, and with a session; and what a peer rejected.
#![tactic(auto)]

mod admitted;
mod codec;
mod filled;
mod frame;
mod plan;
mod reject;
mod session;
mod strict;
mod told;
mod unplanned;
mod walk;

pub use codec::{push_decode_fault, push_encode_fault, push_text_fault};
pub use frame::{push_malformed, push_refused};
pub use plan::push_plan_fault;
pub use reject::push_rejected;
pub use session::push_broken_rule;
pub use told::push_told_fault;
pub use unplanned::push_unplanned;

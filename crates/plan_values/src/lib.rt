//! What a sender is to send: the payloads of application messages, in order. Relies on `fixp_msgs` for what such a payload is.
#![tactic(auto)]

mod plan;

pub use plan::Plan;

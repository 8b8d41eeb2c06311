//! Who sends at an end: senders that have plans, or desks, which answer what the end applies; each has its pass of the gate. Relies on
//! `gate_staff` for senders, on `order_gate` for desks, and on `gate_staff` for when they answer.
#![tactic(auto)]

mod posts;
mod staff;

pub use posts::Posts;
pub use staff::Staff;

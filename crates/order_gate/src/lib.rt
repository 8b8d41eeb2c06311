//! Desks at a gate: the orders that a session delivers are answered by reports, each desk with its own share of them, and all at once. Relies
//! on `order_desk` for what a desk answers, on `gate_senders` for how its reports are sent, and on `gate_staff` for when it is called.
#![tactic(auto)]

mod call;
mod desk;
mod desks;
mod form;
mod hand;
mod line;
mod share;
mod terms;

pub use desk::Desk;
pub use desks::Desks;
pub use form::Form;
pub use terms::Terms;

//! The order book at a gate: the orders that a session delivers are answered by the reports of one book, by one sender. Relies on `order_book`
//! for what is reported and what rests, on `order_gate` for how reports are sent, and on `gate_staff` for when it is called.
#![tactic(auto)]

mod answering;
mod book_desk;
mod orders;
mod passing;
mod writing;

pub use book_desk::BookDesk;

//! The live outside of the gateway as traits: links, which carry the bytes of a connection, dialers, which give one
//! connection after another, and clocks. Each link and dialer counts its faults, so that whoever blames one can show it.
//! Relies on `gw_outside` for the one fault.
#![tactic(auto)]

pub use clock::Clock;
pub use dialer::{Dialer, Next, NoWaker, Wake};
pub use echoing::{Echoed, echo, echo_all};
pub use link::{Got, Link};
pub use send::send_front;

mod clock;
mod dialer;
mod echoing;
mod link;
mod send;

//! The command `datagram`: messages that a script counts go in datagrams to a receiver, in the order that the script lists, and
//! what each delivery makes is told in lines. Relies on `fixp_datagram` for datagrams and the receiver, on the walk over keys for
//! the script, and on `cmd_base` for reading a text.
#![tactic(auto)]

mod command;
mod delivering;
mod lines;
mod outcome;
mod packing;
mod script;

pub use command::{DatagramDevices, run_datagram};
pub use outcome::Outcome;
pub use script::{
    DELIVERIES, Deliveries, FLOW_WORDS, MESSAGES, PER, Script, datagram_count, read_script,
};

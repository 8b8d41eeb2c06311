//! The command `delivered`: the messages that a session applied, as lines of OUT tell them, as text. Relies on `conn_told` for the lines,
//! and on `cmd_by_schema` for the schema.
#![tactic(auto)]

mod command;

pub use command::{DeliveredDevices, run_delivered};

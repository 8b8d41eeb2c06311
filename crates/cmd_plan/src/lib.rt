//! The command `plan`: the messages of a text as lines that give them to senders. Relies on `plan_lines` for the lines, and on `cmd_by_schema`
//! for the schema.
#![tactic(auto)]

mod command;

pub use command::{PlanDevices, run_plan};

//! The command `extends`: whether the schema of one text is a later version of another's, and where they differ first. Relies on
//! `schema_load` for the schemas, on `sbe_skew` for the comparison, and on `cmd_base` for the reading of texts.
#![tactic(auto)]

mod command;
mod outcome;
mod spelled;

pub use command::{ExtendsDevices, run_extends};
pub use outcome::{Outcome, Text};

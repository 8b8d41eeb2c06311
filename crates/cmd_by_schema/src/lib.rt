//! What commands share that read SCHEMA, and then lines: how they end, and the plan of the schema. Relies on `cmd_base` for the reading of a
//! schema's text.
#![tactic(auto)]

mod outcome;
mod plan;

pub use outcome::{Outcome, Text};
pub use plan::plan_from;

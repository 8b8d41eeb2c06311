//! The command `show`: the records of one journal, with their moments as dates and their payloads as text. Relies on `jr_shown` for the lines and for
//! which records are chosen, on `jr_stream` for the records, and on `cmd_by_schema` for the plan of the schema.
#![tactic(auto)]

mod command;
mod follow;
mod outcome;
mod stream;

pub use command::{FollowDevices, ShowDevices, run_follow, run_show};
pub use outcome::{Origin, Outcome};

//! The command `dump`: every frame of recorded bytes, session and application alike, as lines of text. Relies on `frame_text`
//! for what a frame holds, on `sofh_frame` for frames, and on `cmd_base` for the reading of SCHEMA.
#![tactic(auto)]

mod command;
mod dumper;
mod first_line;
mod outcome;
mod stream;

pub use command::{DumpDevices, run_dump};
pub use outcome::{Origin, Outcome};

//! What is wrong with a run over files and a socket, in a line for people: what each device says of itself, which journal is missing,
//! the line of INPUT that is none, and all of that for a session that has ended. Relies on `session_files` for what the words of a session name.
#![tactic(auto)]

mod ended;
mod fed;
mod lines;
mod missing;
mod plans;
mod said;

pub use ended::{Said, line_of};
pub use fed::{FedSaid, fed_line_of};
pub use lines::{push_disk, push_full, push_input, push_journal, push_sink, push_source};
pub use missing::{push_made, push_other};
pub use said::{SaysWhy, push_dial, push_unwritten};

//! Lines of OUT, which tell what a session applied, as text of messages: one after another as they come, in bounded memory. Relies on
//! `gw_lines` for the lines of a source, on `sbe_decode` for the messages, and on `sbe_text` for their text.
#![tactic(auto)]

mod end;
mod line;
mod lines;

pub use end::{ToldEnd, Wrong};
pub use lines::tell_lines;

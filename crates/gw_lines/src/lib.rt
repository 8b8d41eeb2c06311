//! The lines of a text that comes in pieces from a source, one after another and in bounded memory. Relies on `gw_outside` for sources.
#![tactic(auto)]

mod found;
mod front;
mod laws;
mod reader;

pub use found::Found;
pub use front::LONGEST;
pub use laws::lines_of_a_text;
pub use reader::LineReader;

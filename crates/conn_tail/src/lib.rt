//! The end of a file of lines about a session: where its whole lines end, of which applied message the last of them tells, and the cut behind
//! them. Relies on `gw_appended` for the file, and on `conn_lines` for its lines.
#![tactic(auto)]

mod fault;
mod line;
mod piece;
mod tail;

pub use fault::TailFault;
pub use tail::{Tail, cut_tail, read_tail};

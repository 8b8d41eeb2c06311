//! OUT as a projection of an inbox: a run goes on with what an earlier one told, behind its last whole line, and tells first what it lacks. Relies on
//! `conn_tail` for the end of OUT, on `jr_dated` for the records of an inbox, and on `conn_lines` for its lines.
#![tactic(auto)]

mod behind;
mod fault;
mod going_on;
mod laws;

pub use fault::OutFault;
pub use going_on::go_on;
pub use laws::{fronts_project, last_is_told, lines_tell_on, others_tell_on};

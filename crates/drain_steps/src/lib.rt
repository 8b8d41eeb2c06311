//! Laws of the steps of two ends of one session, one behind another. Each function has an empty body; its clause is a statement.
#![tactic(auto)]

mod ranges;
mod samples;

pub use ranges::ranges_hold;
pub use samples::served_sample;

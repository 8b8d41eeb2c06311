//! Laws of the handshake of two ends of one session. Each function but the sample has an empty body; its clause is a statement.
#![tactic(auto)]

mod opening;
mod samples;

pub use opening::{opened_stays, opening_holds};
pub use samples::opening_sample;

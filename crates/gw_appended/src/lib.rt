//! A sink that appends, as a file that is kept from run to run and grows at its end: what it holds can be read, and cut at its end.
//! Relies on `gw_outside` for sinks and their faults.
#![tactic(auto)]

mod appended;

pub use appended::Appended;

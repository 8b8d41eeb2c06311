//! A file that others write while it is read, looked at time and again: each look is a source of what stands in it then, from a place on.
//! Relies on `gw_outside` for sources and their faults.
#![tactic(auto)]

mod growing;

pub use growing::Growing;

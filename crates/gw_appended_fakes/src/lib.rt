//! A sink in memory that appends: it tells its content exactly, and fails at the calls that it is told to. Relies on `gw_appended` for the
//! trait, and on `gw_fakes` for the calls.
#![tactic(auto)]

mod appended;

pub use appended::MemAppended;

//! The outside of the gateway in memory: sources, sinks and disks that tell their content exactly and fail at the calls
//! that they are told to. Relies on `gw_outside` for the traits.
#![tactic(auto)]

pub use calls::Calls;
pub use disk::{MemDisk, Pick};
pub use streams::{MemSink, MemSource};

mod calls;
mod disk;
mod meter;
mod streams;

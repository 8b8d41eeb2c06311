//! The outside of the gateway as traits: byte sources and sinks, and disks.
//! Each device counts its faults, so that whoever blames one can show it. Relies on `sbe_value` for lists of bytes.
#![tactic(auto)]

pub use disk::Disk;
pub use faults::Failed;
pub use sbe_value::{Bytes, Lines, Path, Payloads};
pub use streams::{Sink, Source, push_all};

mod disk;
mod faults;
mod streams;

//! The devices of the operating system: files and standard output as sources and sinks, and a file as a disk. Each keeps
//! why it failed. Sources and sinks tell of their content what the reader or writer behind them tells, and the operating
//! system's tell nothing, as no disk of it does.
#![tactic(auto)]

mod disk;
mod kept;
mod named;
mod sink;
mod source;

pub use disk::{Begun, DiskReason, FileDisk, Opening};
pub use kept::Kept;
pub use named::{Named, Reason, STANDARD_OUTPUT};
pub use sink::FileSink;
pub use source::FileSource;

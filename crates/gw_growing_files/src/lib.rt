//! A file of the operating system that others write while it is read. It tells nothing of its content. Relies on `gw_growing` for what a look is.
#![tactic(auto)]

mod file;
mod front;
mod seen;

pub use file::GrowingFile;
pub use seen::SeenFile;

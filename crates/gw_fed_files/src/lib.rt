//! A file that is read as it comes: a pipe, a FIFO or a terminal is waited for in short pieces, until it is told that nobody asks any more. Relies on
//! `mio` to wait, and on `gw_outside` for what a source is.
#![tactic(auto)]

mod coming;
mod waited;

pub use coming::ComingFile;

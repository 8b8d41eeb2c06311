//! A file of the operating system as a sink that appends: a regular file is kept and grows at its end, and any other, as a pipe, takes what it
//! is given and keeps nothing. It tells nothing of its content. Relies on `gw_real` for the names of files, for why one fails, and for those that
//! keep nothing.
#![tactic(auto)]

mod appended;
mod regular;

pub use appended::AppendedFile;

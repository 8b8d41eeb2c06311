//! Numbers in segments of 4,080, two or four bytes apiece where they stand near each other: for the places of records and of messages,
//! which a session keeps in memory as long as it lives. To add one copies none, or once in a segment those that came before it in its width.
//! Contracts see them as a list.
#![tactic(auto)]

mod run;
mod segment;
mod segments;

pub use segments::Segments;

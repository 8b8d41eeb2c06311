//! The layout of messages of Simple Binary Encoding 1.0 as lines of text: what
//! stands where, for people and for tools to read. It stands on the plans of
//! `sbe_layout`.
#![tactic(auto)]

mod lines;

pub use lines::message_lines;

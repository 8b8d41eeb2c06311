//! The session model: journals, inboxes, flows and process lives as plain lists, and what a session guarantees over them.
//! It stands on nothing; whatever is built above has to show that it is an instance of these definitions.
#![tactic(auto)]

pub mod event;
pub mod grown;
pub mod guarantee;
pub mod implied;
pub mod laws;
pub mod moments;
pub mod samples;
pub mod written;

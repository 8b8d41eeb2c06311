//! Session messages as lines of text, for people: fields by name, flows and codes in words, moments as dates. Relies on `fixp_msgs` for the
//! messages, on `text_dates` and `text_words` for what stands on a line.
#![tactic(auto)]

mod fields;
mod lines;
mod words;

pub use lines::push_session;

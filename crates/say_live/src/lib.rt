//! What goes on in a session, in lines for people on standard error: each with the time in UTC, and the peer's address where there is one.
//! Relies on `gw_watch` for what is heard, and on `session_files` for the files that the words of a session name.
#![tactic(auto)]

mod counts;
mod outline;
mod stamp;
mod teller;
mod words;

pub use teller::Teller;

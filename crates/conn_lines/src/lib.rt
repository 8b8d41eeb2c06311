//! The lines on OUT about a session: what it delivered, what its peer did not apply, and how its connections ended. Relies on
//! `text_words` for numbers and bytes as text.
#![tactic(auto)]

mod close;
mod deliver;
mod lines;

pub use close::Close;
pub use deliver::{push_deliver_line, push_frame_line};
pub use lines::{push_connection_line, push_not_applied_line};

//! What a frame holds, as lines of text: a session message by its own fields, an application message by the plan of its schema, or else the
//! bytes of the frame with their fault. Relies on `fixp_text`, and on `sbe_decode` and `sbe_text`.
#![tactic(auto)]

mod held;
mod unread;

pub use held::{push_application, push_held};
pub use unread::{Held, push_fault};

//! The command `answer`: the acceptor's session over the recorded bytes of a client. Relies on the session machine for the
//! replies, and on `cmd_base` for the devices and CONFIG.
#![tactic(auto)]

mod acceptor;
mod command;
mod frames;
mod laws;
mod lines;

pub use command::answer;
pub use frames::{answer_frame, open_end};
pub use laws::one_answer;

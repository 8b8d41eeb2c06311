//! The command `muxanswer`: several acceptors' sessions over the recorded bytes of one client, each frame behind a Context that names its
//! session. Relies on `cmd_answer` for a session over frames that are handed to it, on `fixp_mux` for what a Context is, and on `cmd_base`
//! for the devices and the reading of CONFIG.
#![tactic(auto)]

mod command;
mod conversation;
mod laws;
mod lines;
mod outcome;
mod router;
mod seat;
mod sessions;
mod unrouted;
mod wire;

pub use command::{MuxDevices, run_muxanswer};
pub use laws::{contexts_are_needed, each_is_its_own, one_mux_answer};
pub use outcome::Outcome;
pub use sessions::{MOST_SESSIONS, OneSession, Sessions, read_sessions};
pub use unrouted::Unrouted;

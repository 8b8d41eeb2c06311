//! Several sessions on one transport, each frame behind a Context that names its session: a router of frames, and for each session a link
//! that shows its own bytes alone. It stands on frames, on the header of session messages, and on the table of identifiers.
#![tactic(auto)]

mod channel;
mod context;
mod held;
mod lane;
mod laws;
mod link;
mod mux;
mod pump;
mod reading;
mod receiving;
mod routed;
mod router;
mod samples;
mod sessions;
mod writing;

pub use context::{CONTEXT_SIZE, Saying, context_bytes, read_saying};
pub use held::SESSION_ROOM;
pub use laws::{
    a_pump_happens, belongs_to_one, context_is_spelled, context_names, part_by_last_context,
    sessions_apart,
};
pub use link::MuxLink;
pub use mux::{MOST_SESSIONS, Mux, MuxMake};
pub use pump::{MuxFault, Pumped};
pub use samples::{
    context_sample, one_session_sample, says_sample, two_sessions_sample, with_context_sample,
};

//! Laws of two ends that run the loop, turn by turn: over one link the turns of both are steps of two honest ends, so no connection
//! ends by a violation but one of time, and at rest each inbox has all of the other's outbox. Each function has an empty body; its
//! clause is a statement about the definitions that the loop's contract is written in.
#![tactic(auto)]

mod connections;
mod counting;
mod lives;
mod samples;
mod sessions;
mod waiting;

pub use connections::{connection_holds, rest_holds, whole_is_equal};
pub use counting::refused_counts;
pub use lives::{life_holds, time_is_linked};
pub use samples::{handshake_sample, rest_sample, unwritten_agree};
pub use sessions::{new_life_agrees, session_holds};
pub use waiting::{one_reads, reads_up_to, writes_replies};

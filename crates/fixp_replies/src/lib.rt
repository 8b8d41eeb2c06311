//! The reply table: what one end of a session does at each event of a connection, as a function of what is recorded, what is
//! known of the connection, and the event. It relies on the flows' crates for numbers, and does no input or output.
#![tactic(auto)]

mod act;
mod announcing;
mod events;
mod expecting;
mod facts;
mod flowing;
mod guards;
mod handshake;
mod incoming;
mod replies;
mod reply;
mod serving;
mod standing;

pub use act::{Act, Ending};
pub use events::{
    HANDSHAKE_LIMIT, begin, end_turn, heartbeat_due, lateness, link_ending, outbox_finished,
    tell_finish,
};
pub use facts::{Around, Connection, EndState, Facts, OwnFinish, PeerFinish};
pub use incoming::{Incoming, classify};
pub use replies::{reply_to, reply_to_bad_frame};
pub use reply::{Outgoing, Reply, Written};

//! What goes on in a session, for people: devices that pass all through to the devices that they hold, and tell an ear what
//! they see of the session's messages, of the connections and of OUT. Each tells as much of its content as the device that it
//! holds, and fails where that one does. Relies on `fixp_msgs` to read the session's messages.
#![tactic(auto)]

mod dialer;
mod ear;
mod follow;
mod link;
mod sink;
mod sockets;
mod source;

pub use dialer::{Approach, Approaches, Pauses, WatchedDialer};
pub use ear::{Ear, Heard, NoEar};
pub use link::{HasPeer, WatchedLink};
pub use sink::WatchedSink;
pub use source::WatchedSource;

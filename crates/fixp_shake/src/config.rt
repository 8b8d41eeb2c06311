//! The configuration of one end of a session.

use fixp_msgs::Flow;
use sbe_value::Bytes;

/// Which side of the session an end is (FIXP 1.1, "Session roles").
#[derive(Clone, Copy, Debug)]
pub enum Role {
    /// The client, which opens each connection.
    Initiator,
    /// The server.
    Acceptor,
}

/// The configuration of one end.
#[derive(Drop)]
pub struct EndConfig {
    pub role: Role,
    /// The 16 bytes of the session's UUID.
    pub session: [u8; 16],
    /// The flow of the messages that this end sends.
    pub own_flow: Flow,
    /// The flow of the messages that this end receives.
    pub peer_flow: Flow,
    /// The end's own heartbeat interval, 100 to 60,000 milliseconds.
    pub keepalive: u32,
    /// At most 2,048 bytes, equal at both ends.
    pub credentials: Bytes,
    /// The version of the session schema, 0 or 1. From version 1 on an end tells which number it expects, and its peer starts
    /// there.
    pub version: u16,
}

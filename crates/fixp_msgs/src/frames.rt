//! Telling session messages from application messages by the schema id of their header.

ghost use Rattle.std.specs.Prelude.{◌≡◌, ◌≤◌, length};
ghost use Rattle.fixp_msgs.specs.Header.{kind_of};

use sbe_prim::Order;

/// The schema id of every session message (this project's profile).
pub(crate) const SESSION_SCHEMA: u16 = 0xF011;

/// What a message is, by its schema id and byte order (this project's profile).
#[derive(Clone, Copy, Debug, PartialEq, Eq)]
pub enum FrameKind {
    /// An application message: its schema id is not that of the session.
    App,
    /// A session message.
    Session,
    /// A session message in big-endian order, which is malformed.
    Wrong,
}

/// What the message of a frame is. `message` begins with its SBE header of 8 bytes
/// (SBE 1.0, "Message header"), the bytes after the frame's encoding type.
pub fn kind(order: Order, message: &[u8]) -> FrameKind
    requires { 8 ≤ length message.now }
    ensures { result ≡ kind_of order message.now }
{
    let id = [message[4], message[5]];
    match order {
        Order::Little if u16::from_le_bytes(id) == SESSION_SCHEMA => FrameKind::Session,
        Order::Big if u16::from_be_bytes(id) == SESSION_SCHEMA => FrameKind::Wrong,
        Order::Little | Order::Big => FrameKind::App,
    }
}

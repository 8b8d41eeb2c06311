//! What a frame is to an end: its message, classified.

ghost use Rattle.std.specs.Prelude.{◌≤◌, length};
ghost use Rattle.fixp_replies.specs.Incoming.{IsIncoming, incoming_of};

use fixp_msgs::{FrameKind, MsgFault, SessionMsg, kind, read};
use sbe_prim::Order;

/// The message of a frame, classified.
#[derive(Clone, Copy)]
pub enum Incoming<'a> {
    /// It is an application message, in this byte order.
    Application { order: Order, message: &'a [u8] },
    /// It is this session message.
    Session(SessionMsg<'a>),
    /// It is a session message in big-endian order.
    WrongOrder,
    /// It is a session message whose block or data do not stand whole in it.
    TooShort,
    /// It is a session message with a template that none has.
    Unknown(u16),
}

/// Classifies the message of a frame. `message` begins with its SBE header of 8 bytes.
pub fn classify(order: Order, message: &[u8]) -> Incoming<'_>
    requires { 8 ≤ length message.now }
    ensures { IsIncoming order message.now (incoming_of result) }
{
    match kind(order, message) {
        FrameKind::App => Incoming::Application { order, message },
        FrameKind::Wrong => Incoming::WrongOrder,
        FrameKind::Session => match read(message) {
            Ok(message) => Incoming::Session(message),
            Err(MsgFault::Short) => Incoming::TooShort,
            Err(MsgFault::BadTemplate { id }) => Incoming::Unknown(id),
        },
    }
}

//! What the message of a frame is.

use fixp_msgs::{FrameKind, SessionMsg, kind, read};
use sbe_prim::Order;

/// The session message of a frame, if it has one.
pub fn session_in<'a>(order: Order, message: &'a [u8]) -> Option<SessionMsg<'a>> {
    if message.len() < 8 || order != Order::Little || kind(order, message) != FrameKind::Session {
        return None;
    }
    read(message).ok()
}

/// Whether a frame has an application message.
pub fn is_application(order: Order, message: &[u8]) -> bool {
    message.len() >= 8 && kind(order, message) == FrameKind::App
}

//! Payloads of application messages, told from any other bytes.

ghost use Rattle.std.specs.Prelude.{◌≡◌, ◌<◌, ◌↔◌, ◌++◌, length, IsTrue, IfSome, IfNone};
ghost use Rattle.std.specs.Int.{w16, to_be_bytes};
ghost use Rattle.sofh_frame.specs.Framing.{order_of};
ghost use Rattle.fixp_msgs.specs.Payload.{IsApplication};

use crate::frames::{FrameKind, kind};
use sbe_prim::Order;

/// Whether some bytes are the payload of an application message: its frame from the encoding type on, with a message of 8
/// to 16,384 bytes (Simple Open Framing Header, "Encoding Type") whose schema id is not that of the session.
pub fn is_application(payload: &[u8]) -> bool
    ensures exact { IsTrue result ↔ IsApplication payload.now }
{
    let Some((encoding, message)) = split_encoding(payload) else {
        return false;
    };
    let Some(order) = order_named(encoding) else {
        return false;
    };
    if message.len() < 8 || message.len() > 16_384 {
        return false;
    }
    match kind(order, message) {
        FrameKind::App => true,
        FrameKind::Session | FrameKind::Wrong => false,
    }
}

/// The number in the first two bytes, and what stands behind them.
fn split_encoding(bytes: &[u8]) -> Option<(u16, &[u8])>
    ensures found { IfSome result (λ p. to_be_bytes w16 p.0 ++ p.1.now ≡ bytes.now) }
    ensures none { IfNone result (length bytes.now < 2) }
{
    let (front, behind) = bytes.split_first_chunk::<2>()?;
    Some((u16::from_be_bytes(*front), behind))
}

/// The byte order that an encoding type names.
fn order_named(encoding: u16) -> Option<Order>
    ensures named { result ≡ order_of encoding }
{
    match encoding {
        0xEB50 => Some(Order::Little),
        0x5BE0 => Some(Order::Big),
        _ => None,
    }
}

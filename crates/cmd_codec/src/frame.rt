//! The frame of one message.

ghost use Rattle.std.specs.Prelude.{◌≡◌, ◌≤◌, ◌++◌, length, OnOk};
ghost use Rattle.sofh_frame.specs.Framing.{encoding_of, spelled};

use sbe_prim::Order;
use std::alloc::AllocError;

/// The size of a frame's header in bytes: 4 of its length and 2 of its encoding type (Simple Open Framing Header).
const HEADER: u32 = 6;

/// The encoding type of SBE 1.0 in a byte order.
fn encoding_of(order: Order) -> u16
    ensures { result ≡ encoding_of order }
{
    match order {
        Order::Little => 0xEB50,
        Order::Big => 0x5BE0,
    }
}

/// Adds the frame of the bytes of a message (Simple Open Framing Header).
#[tactic(auto, unfolding(sofh_frame::specs::Framing::header_of))]
pub fn add_bytes(order: Order, message: &[u8], frames: &mut Vec<u8>) -> Result<(), AllocError>
    requires { length message.now ≤ 16384 }
    ensures { OnOk result (frames.new.items ≡ frames.old.items ++ spelled (record { order = order; message = message.now })) }
{
    let size = HEADER + message.len() as u32;
    frames.extend_from_slice(&size.to_be_bytes())?;
    frames.extend_from_slice(&encoding_of(order).to_be_bytes())?;
    frames.extend_from_slice(message)
}

//! Messages that were applied.

ghost use Rattle.std.specs.Prelude.{◌≡◌, ◌≤◌, ◌^◌, ◌++◌, [], ◌∷◌, codes, decimal, length, OnOk};
ghost use Rattle.std.specs.Int.{w16, to_be_bytes};
ghost use Rattle.hex.specs.Hex.{encode_lower};
ghost use Rattle.sofh_frame.specs.Framing.{encoding_of};
ghost use Rattle.fixp_msgs.specs.Numbering.{payload_of};
ghost use Rattle.conn_lines.specs.Lines.{deliver_line};

use sofh_frame::Order;
use std::alloc::AllocError;
use text_words::{push_hex, push_number};

/// The encoding type of a frame in hexadecimal (Simple Open Framing Header).
fn encoding_digits(order: Order) -> &'static [u8]
    ensures { result.now ≡ encode_lower (to_be_bytes w16 (encoding_of order)) }
{
    match order {
        Order::Little => b"eb50",
        Order::Big => b"5be0",
    }
}

/// The most bytes that are made text at once.
const PART: usize = 1 << 20;

/// Adds bytes of any length in lower-case hexadecimal.
fn push_parts(lines: &mut Vec<u8>, bytes: &[u8]) -> Result<(), AllocError>
    ensures added { OnOk result (lines.new.items ≡ lines.old.items ++ encode_lower bytes.now) }
{
    for part in bytes.chunks(PART) {
        push_hex(lines, part)?;
    }
    Ok(())
}

/// Adds the line of a message that is applied under a number.
///
/// # Errors
/// Want of memory.
pub fn push_deliver_line(lines: &mut Vec<u8>, number: u64, payload: &[u8]) -> Result<(), AllocError>
    ensures added { OnOk result (lines.new.items ≡ lines.old.items ++ deliver_line number payload.now) }
{
    push_number(lines, b"deliver ", number)?;
    lines.extend_from_slice(b" ")?;
    push_parts(lines, payload)?;
    lines.extend_from_slice(b"\n")
}

/// Adds the line of a message that is applied under a number, given its frame.
///
/// # Errors
/// Want of memory.
#[tactic(auto, using(crate::proofs::Hexadecimal::frame_line))]
pub fn push_frame_line(
    lines: &mut Vec<u8>,
    number: u64,
    order: Order,
    message: &[u8],
) -> Result<(), AllocError>
    requires short { length message.now ≤ 2 ^ 20 }
    ensures added { OnOk result (lines.new.items ≡ lines.old.items ++ deliver_line number (payload_of (record { order = order; message = message.now }))) }
{
    push_number(lines, b"deliver ", number)?;
    lines.extend_from_slice(b" ")?;
    lines.extend_from_slice(encoding_digits(order))?;
    push_hex(lines, message)?;
    lines.extend_from_slice(b"\n")
}

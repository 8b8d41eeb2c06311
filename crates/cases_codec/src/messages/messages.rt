//! The session messages as the profile's table spells them, read and written.

ghost use Rattle.std.specs.Prelude.{◌≡◌, ◌≢◌, ◌≤◌, length, Some, IsTrue};
ghost use Rattle.sbe_prim.specs.declared.Order.TheVariants.{Little};
ghost use Rattle.fixp_msgs.specs.declared.frames.FrameKind.TheVariants.{Session};
ghost use Rattle.fixp_msgs.specs.Header.{kind_of};
ghost use Rattle.fixp_msgs.specs.Message.{message_of};
ghost use Rattle.fixp_msgs.specs.Table.{Field, null};
ghost use Rattle.fixp_msgs.specs.Canonical.{IsWritable, IsWritableField};

use cases_words::bytes;
use fixp_msgs::{Expected, FrameKind, SessionMsg, kind, read, size, write};
use sbe_prim::Order;
use std::alloc::{AllocError, Global};

/// Stands behind what is written.
const BEHIND: u8 = 0xA5;

/// The message of a frame.
pub fn message_in(frame: &[u8]) -> &[u8] {
    match frame.split_at_checked(6) {
        Some((_, message)) => message,
        None => &[],
    }
}

/// What reading a message says.
pub fn answer(alloc: Global, message: &[u8]) -> Result<String, AllocError> {
    if message.len() < 8 {
        return format!(in alloc; "no header");
    }
    match kind(Order::Little, message) {
        FrameKind::Session => format!(in alloc; "{:?}", read(message)),
        FrameKind::App => format!(in alloc; "App"),
        FrameKind::Wrong => format!(in alloc; "Wrong"),
    }
}

fn is_short(datum: &[u8]) -> bool
    ensures { IsTrue result → length datum.now ≤ 2048 }
{
    datum.len() <= 2048
}

fn is_not_null(number: Option<u64>) -> bool
    ensures { IsTrue result → number ≢ Some null }
{
    match number {
        Some(number) => number != u64::MAX,
        None => true,
    }
}

/// Whether an expected number can be written.
fn is_written(expected: Expected) -> bool
    ensures { IsTrue result → IsWritableField (Field.expected expected) }
{
    match expected {
        Expected::Absent => true,
        Expected::Null => true,
        Expected::Number(number) => number != u64::MAX,
    }
}

/// Whether a message can be written.
fn is_writable(message: &SessionMsg<'_>) -> bool
    ensures { IsTrue result → IsWritable (message_of message.now) }
{
    match message {
        SessionMsg::Negotiate(m) => is_short(m.credentials),
        SessionMsg::NegotiationResponse(m) => is_short(m.credentials),
        SessionMsg::NegotiationReject(m) => is_short(m.reason),
        SessionMsg::Establish(m) => {
            is_short(m.credentials) && is_not_null(m.next_seq) && is_written(m.expected_next)
        }
        SessionMsg::EstablishmentAck(m) => is_not_null(m.next_seq) && is_written(m.expected_next),
        SessionMsg::EstablishmentReject(m) => is_short(m.reason),
        SessionMsg::RetransmitReject(m) => is_short(m.reason),
        SessionMsg::FinishedSending(m) => is_not_null(m.last_seq),
        SessionMsg::Terminate(m) => is_short(m.reason),
        SessionMsg::Sequence(_)
        | SessionMsg::UnsequencedHeartbeat(_)
        | SessionMsg::RetransmitRequest(_)
        | SessionMsg::Retransmission(_)
        | SessionMsg::Applied(_)
        | SessionMsg::NotApplied(_)
        | SessionMsg::FinishedReceiving(_) => true,
    }
}

/// The size of a message that is written, and whether the frame is what stands then, and nothing behind it is touched.
fn back(message: &SessionMsg<'_>, frame: &[u8]) -> Option<(usize, bool)> {
    if !is_writable(message) {
        return None;
    }
    let size = size(message);
    let mut out = [BEHIND; 2108];
    let written = write(message, &mut out);
    let (front, behind) = out.split_at(written);
    let same = front == frame && behind.iter().all(|byte| *byte == BEHIND);
    Some((size, same))
}

/// Whether the message of a frame is written as that frame.
fn written(alloc: Global, frame: &[u8]) -> Result<String, AllocError> {
    let message = message_in(frame);
    if message.len() < 8 || kind(Order::Little, message) != FrameKind::Session {
        return format!(in alloc; "no session message");
    }
    match read(message) {
        Ok(found) => format!(in alloc; "{:?}", back(&found, frame)),
        Err(fault) => format!(in alloc; "{fault:?}"),
    }
}

/// The message of a frame as its fields, the size and the sameness of what is written of it, and the message without its
/// last byte.
pub fn message_line(alloc: Global, name: &str, frame: &[u8]) -> Result<String, AllocError> {
    let message = message_in(frame);
    let found = answer(alloc, message)?;
    let written = written(alloc, frame)?;
    let (front, _) = message.split_at(message.len().saturating_sub(1));
    let cut = answer(alloc, front)?;
    format!(in alloc; "{name}: {found}\n  written {written}, cut {cut}")
}

/// The frame whose message has this byte all over its block.
fn filled(alloc: Global, frame: &[u8], byte: u8) -> Result<Vec<u8>, AllocError> {
    let mut bytes = Vec::from_slice(alloc, frame)?;
    if let [_, _, _, _, _, _, low, high, _, _, _, _, _, _, body @ ..] = bytes.as_mut_slice() {
        let length = usize::from(u16::from_le_bytes([*low, *high]));
        if let Some((block, _)) = body.split_at_mut_checked(length) {
            block.fill(byte);
        }
    }
    Ok(bytes)
}

/// The same of the frame whose message has this byte all over its block: its least or its greatest numbers.
pub fn filled_line(
    alloc: Global,
    name: &str,
    frame: &[u8],
    byte: u8,
) -> Result<String, AllocError> {
    let frame = filled(alloc, frame, byte)?;
    message_line(alloc, name, frame.as_slice())
}

/// What reading the bytes of a message says.
pub fn bytes_line(alloc: Global, digits: &str) -> Result<String, AllocError> {
    let message = bytes(alloc, digits)?;
    let found = answer(alloc, message.as_slice())?;
    format!(in alloc; "bytes {digits}: {found}")
}

/// What a big-endian message is.
pub fn big_line(alloc: Global, digits: &str) -> Result<String, AllocError> {
    let message = bytes(alloc, digits)?;
    if message.len() < 8 {
        return format!(in alloc; "big {digits}: no header");
    }
    format!(in alloc; "big {digits}: {:?}", kind(Order::Big, message.as_slice()))
}

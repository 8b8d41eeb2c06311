//! Messages with blocks of other lengths, with more bytes behind them, and with fewer.

ghost use Rattle.std.specs.Prelude.{◌≡◌, ◌≤◌, length, IsTrue};
ghost use Rattle.sbe_prim.specs.declared.Order.TheVariants.{Little};
ghost use Rattle.fixp_msgs.specs.declared.frames.FrameKind.TheVariants.{Session};
ghost use Rattle.fixp_msgs.specs.Header.{kind_of};

use crate::messages::messages::{answer, message_in};
use fixp_msgs::{FrameKind, MsgFault, kind, read};
use sbe_prim::Order;
use std::alloc::{AllocError, Global};

/// The header of a message, its block and what stands behind it.
#[derive(Clone, Copy)]
struct Parts<'a> {
    length: u16,
    template: &'a [u8],
    block: &'a [u8],
    behind: &'a [u8],
}

/// A message in its parts; none where its block is not whole.
fn parts_of(message: &[u8]) -> Option<Parts<'_>> {
    let (header, body) = message.split_at_checked(8)?;
    let (length, others) = header.split_first_chunk::<2>()?;
    let length = u16::from_le_bytes(*length);
    let (template, _version) = others.split_at_checked(4)?;
    let (block, behind) = body.split_at_checked(usize::from(length))?;
    Some(Parts {
        length,
        template,
        block,
        behind,
    })
}

/// The bytes of a message of version 7, whose stated block length is this one and has more bytes at its end, and with more
/// bytes behind it.
fn joined(
    alloc: Global,
    parts: Parts<'_>,
    length: u16,
    padding: &[u8],
    tail: &[u8],
) -> Result<Vec<u8>, AllocError> {
    let mut bytes = Vec::new(alloc);
    bytes.extend_from_slice(&length.to_le_bytes())?;
    bytes.extend_from_slice(parts.template)?;
    bytes.extend_from_slice(&[7, 0])?;
    bytes.extend_from_slice(parts.block)?;
    bytes.extend_from_slice(padding)?;
    bytes.extend_from_slice(parts.behind)?;
    bytes.extend_from_slice(tail)?;
    Ok(bytes)
}

/// Whether it reads as a session message.
fn is_read(message: &[u8]) -> bool {
    is_session(message) && read(message).is_ok()
}

/// Whether two messages read as the same session message: what is said of one names all of it.
fn read_alike(alloc: Global, first: &[u8], second: &[u8]) -> Result<bool, AllocError> {
    if !is_read(first) || !is_read(second) {
        return Ok(false);
    }
    let said = answer(alloc, first)?;
    Ok(said == answer(alloc, second)?)
}

/// Whether it is a session message, so that it may be read.
fn is_session(message: &[u8]) -> bool
    ensures header { IsTrue result → 8 ≤ length message.now }
    ensures session { IsTrue result → kind_of Little message.now ≡ Session }
{
    message.len() >= 8 && matches!(kind(Order::Little, message), FrameKind::Session)
}

/// How many of the fronts of a message that have its header and are shorter than it are too short.
fn short_fronts(message: &[u8]) -> u64 {
    let mut short = 0u64;
    for size in 8..message.len() {
        let (front, _) = message.split_at(size);
        if is_session(front) && matches!(read(front), Err(MsgFault::Short)) {
            short = short.saturating_add(1);
        }
    }
    short
}

/// The message of a frame with its block stated one byte shorter; with a longer block, bytes behind the last element and a
/// later version; and cut off.
pub fn lengths_line(alloc: Global, name: &str, frame: &[u8]) -> Result<String, AllocError> {
    let message = message_in(frame);
    let Some(parts) = parts_of(message) else {
        return format!(in alloc; "{name}: no message");
    };
    let shorter = joined(alloc, parts, parts.length.saturating_sub(1), &[], &[])?;
    let told = answer(alloc, shorter.as_slice())?;
    let longer = joined(
        alloc,
        parts,
        parts.length.saturating_add(3),
        &[0xEE; 3],
        &[0xDD; 2],
    )?;
    let same = read_alike(alloc, longer.as_slice(), message)?;
    let short = short_fronts(message);
    let fronts = message.len().saturating_sub(8);
    format!(in alloc;
        "{name}: of {} bytes {told}, longer and later alike {same}, {short} of {fronts} fronts short",
        parts.length.saturating_sub(1)
    )
}

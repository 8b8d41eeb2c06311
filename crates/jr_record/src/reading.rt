//! Reading the record at the front of some bytes.

ghost use Rattle.std.specs.Prelude.{◌≡◌, ◌<◌, ◌↔◌, ◌++◌, length, IsTrue, IfOk, IfSome, IfNone};
ghost use Rattle.std.specs.Int.{w16, w32, w64, to_le_bytes};
ghost use Rattle.jr_record.specs.Records.{BeginsWith, IsBody, IsSender, IsNumber, IsPayload};

use crate::record::Record;
use gw_outside::Bytes;
use std::alloc::{AllocError, Global};

/// The record at the front of `bytes`, or `None` exactly where they begin with none: they end within it, its kind or its
/// length is none of the format's, or a number or a payload lies outside its range.
///
/// # Errors
/// Want of memory for the payload.
pub fn read_record(alloc: Global, bytes: &[u8]) -> Result<Option<Record>, AllocError>
    ensures exact { IfOk result (BeginsWith bytes.now) }
{
    let Some((kind, rest)) = bytes.split_first() else {
        return Ok(None);
    };
    let Some((size, behind)) = read_u32(rest) else {
        return Ok(None);
    };
    if behind.len() < size as usize {
        return Ok(None);
    }
    let (body, _) = behind.split_at(size as usize);
    read_body(alloc, *kind, body)
}

/// The record of a kind with this body, if there is one.
fn read_body(alloc: Global, kind: u8, body: &[u8]) -> Result<Option<Record>, AllocError>
    ensures exact { IfOk result (IsBody kind body.now) }
{
    match kind {
        1 => read_entry(alloc, body),
        2 => read_apply(alloc, body),
        3 => Ok(read_skip(body)),
        4 if body.is_empty() => Ok(Some(Record::Negotiated)),
        5 => Ok(read_last(body)),
        6 if body.is_empty() => Ok(Some(Record::Finish)),
        _ => Ok(None),
    }
}

/// A message that was handed in.
fn read_entry(alloc: Global, body: &[u8]) -> Result<Option<Record>, AllocError>
    ensures exact { IfOk result (IsBody 1 body.now) }
{
    let Some((sender, behind)) = read_u16(body) else {
        return Ok(None);
    };
    let Some((k, payload)) = read_u64(behind) else {
        return Ok(None);
    };
    if !(is_sender(sender) && k > 0 && is_payload(payload)) {
        return Ok(None);
    }
    let payload = Bytes::from_slice(alloc, payload)?;
    Ok(Some(Record::Entry { sender, k, payload }))
}

/// A message that was applied.
fn read_apply(alloc: Global, body: &[u8]) -> Result<Option<Record>, AllocError>
    ensures exact { IfOk result (IsBody 2 body.now) }
{
    let Some((number, payload)) = read_u64(body) else {
        return Ok(None);
    };
    if !(number > 0 && is_payload(payload)) {
        return Ok(None);
    }
    let payload = Bytes::from_slice(alloc, payload)?;
    Ok(Some(Record::Apply { number, payload }))
}

/// A range that was jumped over.
fn read_skip(body: &[u8]) -> Option<Record>
    ensures exact { IsBody 3 body.now result }
{
    let (from, behind) = read_u64(body)?;
    let (count, rest) = read_u64(behind)?;
    if from > 0 && count > 0 && rest.is_empty() {
        Some(Record::Skip { from, count })
    } else {
        None
    }
}

/// The peer's last number.
fn read_last(body: &[u8]) -> Option<Record>
    ensures exact { IsBody 5 body.now result }
{
    let (last, rest) = read_u64(body)?;
    if rest.is_empty() {
        Some(Record::PeerFinished { last })
    } else {
        None
    }
}

/// Whether a sender is one of an end.
fn is_sender(sender: u16) -> bool
    ensures value { IsTrue result ↔ IsSender sender }
{
    sender >= 1 && sender <= 16
}

/// Whether bytes are as many as a payload has.
fn is_payload(bytes: &[u8]) -> bool
    ensures value { IsTrue result ↔ IsPayload bytes.now }
{
    bytes.len() >= 10 && bytes.len() <= 16_386
}

/// The number in the first two bytes, little-endian, and what stands behind them.
fn read_u16(bytes: &[u8]) -> Option<(u16, &[u8])>
    ensures found { IfSome result (λ p. to_le_bytes w16 p.0 ++ p.1.now ≡ bytes.now) }
    ensures none { IfNone result (length bytes.now < 2) }
{
    let (front, behind) = bytes.split_first_chunk::<2>()?;
    Some((u16::from_le_bytes(*front), behind))
}

/// The number in the first four bytes, little-endian, and what stands behind them.
fn read_u32(bytes: &[u8]) -> Option<(u32, &[u8])>
    ensures found { IfSome result (λ p. to_le_bytes w32 p.0 ++ p.1.now ≡ bytes.now) }
    ensures none { IfNone result (length bytes.now < 4) }
{
    let (front, behind) = bytes.split_first_chunk::<4>()?;
    Some((u32::from_le_bytes(*front), behind))
}

/// The number in the first eight bytes, little-endian, and what stands behind them.
fn read_u64(bytes: &[u8]) -> Option<(u64, &[u8])>
    ensures found { IfSome result (λ p. to_le_bytes w64 p.0 ++ p.1.now ≡ bytes.now) }
    ensures none { IfNone result (length bytes.now < 8) }
{
    let (front, behind) = bytes.split_first_chunk::<8>()?;
    Some((u64::from_le_bytes(*front), behind))
}

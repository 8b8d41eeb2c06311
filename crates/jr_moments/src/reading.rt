//! Reading the dated record at the front of some bytes.

ghost use Rattle.std.specs.Prelude.{◌≡◌, ◌<◌, ◌≤◌, ◌∷◌, ◌++◌, length, IfOk, IfSome, IfNone};
ghost use Rattle.std.specs.Int.{w32, w64, to_le_bytes};
ghost use Rattle.jr_record.specs.Records.{BeginsWith as BeginsPlain};
ghost use Rattle.jr_moments.specs.Dated.{BeginsWith, dated_of};

use jr_record::Record;
use std::alloc::{AllocError, Global};

/// The first moment that no record carries: 2^44 milliseconds.
const MOMENTS: u64 = 1 << 44;

/// The record at the front of `bytes` and its moment, or `None` exactly where they begin with none: they end within it, its
/// kind or its length is none of the format's, or a number, a moment or a payload lies outside its range.
///
/// # Errors
/// Want of memory.
pub fn read_record(alloc: Global, bytes: &[u8]) -> Result<Option<(Record, u64)>, AllocError>
    ensures exact { IfOk result (λ found. BeginsWith bytes.now (dated_of found)) }
{
    let Some((kind, rest)) = bytes.split_first() else {
        return Ok(None);
    };
    let Some((moment, behind)) = read_u64(rest) else {
        return Ok(None);
    };
    let Some((size, body)) = read_u32(behind) else {
        return Ok(None);
    };
    if moment >= MOMENTS {
        return Ok(None);
    }
    if body.len() < size as usize {
        return Ok(None);
    }
    let (sized, _) = behind.split_at(4 + size as usize);
    match read_plain(alloc, *kind, sized)? {
        Some(r) => Ok(Some((r, moment))),
        None => Ok(None),
    }
}

/// The record of a kind whose length and body are these: `jr_record` reads them as one piece.
fn read_plain(alloc: Global, kind: u8, sized: &[u8]) -> Result<Option<Record>, AllocError>
    ensures exact { IfOk result (BeginsPlain (kind ∷ sized.now)) }
{
    let mut plain = Vec::new(alloc);
    plain.push(kind)?;
    plain.extend_from_slice(sized)?;
    jr_record::read_record(alloc, plain.as_slice())
}

/// The number in the first four bytes, little-endian, and what stands behind them.
fn read_u32(bytes: &[u8]) -> Option<(u32, &[u8])>
    ensures found { IfSome result (λ p. to_le_bytes w32 p.0 ++ p.1.now ≡ bytes.now) }
    ensures none { IfNone result (length bytes.now < 4) }
{
    let (front, behind) = bytes.split_first_chunk::<4>()?;
    Some((u32::from_le_bytes(*front), behind))
}

/// The number in the first eight bytes, little-endian, and what stands behind them.
fn read_u64(bytes: &[u8]) -> Option<(u64, &[u8])>
    ensures found { IfSome result (λ p. to_le_bytes w64 p.0 ++ p.1.now ≡ bytes.now) }
    ensures none { IfNone result (length bytes.now < 8) }
{
    let (front, behind) = bytes.split_first_chunk::<8>()?;
    Some((u64::from_le_bytes(*front), behind))
}

//! The bytes of a dated record: how many they are, and how they are written.

ghost use Rattle.std.specs.Prelude.{◌≡◌, ◌≤◌, ◌<◌, ◌^◌, ◌∷◌, ◌++◌, OnOk, OnErr, IfOk};
ghost use Rattle.std.specs.Int.{w64, to_le_bytes};
ghost use Rattle.jr_record.specs.Records.{IsRecord};
ghost use Rattle.jr_moments.specs.Dated.{record_size as size_of, spelled, stamped};

use gw_outside::Bytes;
use jr_record::Record;
use std::alloc::{AllocError, Global};

/// The bytes of a moment.
const MOMENT: u64 = 8;

/// The number of bytes that a record takes in a journal, its gate among them.
pub fn record_size(r: &Record) -> u64
    requires legal { IsRecord r.now }
    ensures size { result ≡ size_of r.now }
    ensures least { 14 ≤ result }
    ensures most { result ≤ 16410 }
{
    jr_record::record_size(r) + MOMENT
}

/// Writes a record with its moment behind the bytes of `out`.
///
/// # Errors
/// Want of memory; `out` is as it was.
pub fn write_record(
    alloc: Global,
    r: &Record,
    moment: u64,
    out: &mut Bytes,
) -> Result<(), AllocError>
    requires legal { IsRecord r.now }
    requires time { moment < 2 ^ 44 }
    ensures ok { OnOk result (out.new ≡ out.old ++ spelled (stamped moment r.now)) }
    ensures err { OnErr result (out.new ≡ out.old) }
{
    let bytes = dated(alloc, r, moment)?;
    out.extend_from_slice(bytes.as_slice())
}

/// The bytes of a record with its moment: those without it, and the moment behind the first of them.
fn dated(alloc: Global, r: &Record, moment: u64) -> Result<Vec<u8>, AllocError>
    requires legal { IsRecord r.now }
    ensures bytes { IfOk result (λ bytes. bytes.items ≡ spelled (stamped moment r.now)) }
{
    let mut plain = Bytes::new(alloc);
    jr_record::write_record(alloc, r, &mut plain)?;
    let Some((kind, behind)) = plain.as_slice().split_first() else {
        return Ok(Vec::new(alloc));
    };
    with_moment(alloc, *kind, moment, behind)
}

/// A kind, a moment, and what stands behind them.
fn with_moment(alloc: Global, kind: u8, moment: u64, behind: &[u8]) -> Result<Vec<u8>, AllocError>
    ensures bytes { IfOk result (λ bytes. bytes.items ≡ kind ∷ to_le_bytes w64 moment ++ behind.now) }
{
    let mut bytes = Vec::new(alloc);
    bytes.push(kind)?;
    bytes.extend_from_slice(&moment.to_le_bytes())?;
    bytes.extend_from_slice(behind)?;
    Ok(bytes)
}

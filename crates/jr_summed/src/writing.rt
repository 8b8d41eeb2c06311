//! The bytes of a record with its sum: how many they are, and how they are written.

ghost use Rattle.std.specs.Prelude.{◌≡◌, ◌+◌, ◌≤◌, ◌<◌, ◌^◌, ◌++◌, OnOk, OnErr, IfOk};
ghost use Rattle.jr_record.specs.Records.{IsRecord};
ghost use Rattle.jr_moments.specs.Dated.{record_size as dated_size, stamped};
ghost use Rattle.jr_summed.specs.Summed.{summed};

use crc32c::crc32c;
use gw_outside::Bytes;
use jr_record::Record;
use std::alloc::{AllocError, Global};

/// The bytes of a sum.
const SUM: u64 = 4;

/// The number of bytes that a record takes in a journal, its gate and its sum among them.
pub fn record_size(r: &Record) -> u64
    requires legal { IsRecord r.now }
    ensures size { result ≡ dated_size r.now + 4 }
    ensures least { 18 ≤ result }
    ensures most { result ≤ 16414 }
{
    jr_moments::record_size(r) + SUM
}

/// Writes a record with its moment and its sum behind the bytes of `out`.
///
/// # Errors
/// Want of memory; `out` is as it was.
pub fn write_record(
    alloc: Global,
    r: &Record,
    moment: u64,
    out: &mut Bytes,
) -> Result<(), AllocError>
    requires legal { IsRecord r.now }
    requires time { moment < 2 ^ 44 }
    ensures ok { OnOk result (out.new ≡ out.old ++ summed (stamped moment r.now)) }
    ensures err { OnErr result (out.new ≡ out.old) }
{
    let bytes = with_sum(alloc, r, moment)?;
    out.extend_from_slice(bytes.as_slice())
}

/// The bytes of a record with its sum.
fn with_sum(alloc: Global, r: &Record, moment: u64) -> Result<Bytes, AllocError>
    requires legal { IsRecord r.now }
    requires time { moment < 2 ^ 44 }
    ensures bytes { IfOk result (λ bytes. bytes ≡ summed (stamped moment r.now)) }
{
    let mut bytes = Bytes::new(alloc);
    jr_moments::write_record(alloc, r, moment, &mut bytes)?;
    let sum = crc32c(bytes.as_slice());
    bytes.extend_from_slice(&sum.to_le_bytes())?;
    Ok(bytes)
}

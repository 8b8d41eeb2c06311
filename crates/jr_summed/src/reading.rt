//! Reading the record with its sum at the front of some bytes.

ghost use Rattle.std.specs.Prelude.{◌≡◌, ◌↔◌, IfOk, IsTrue};
ghost use Rattle.std.specs.Int.{w32, to_le_bytes};
ghost use Rattle.crc32c.specs.Sums.{crc_of};
ghost use Rattle.jr_summed.specs.Summed.{IsFound};

use crc32c::crc32c;
use jr_record::Record;
use std::alloc::{AllocError, Global};

/// What stands at the front of some bytes.
#[derive(Drop)]
pub enum Found {
    /// A record with its moment, and its sum.
    Whole { record: Record, moment: u64 },
    /// A record with four bytes behind it that are not its sum.
    Changed,
    /// No record with four bytes behind it.
    Nothing,
}

/// What stands at the front of `bytes`.
///
/// # Errors
/// Want of memory.
pub fn read_record(alloc: Global, bytes: &[u8]) -> Result<Found, AllocError>
    ensures exact { IfOk result (IsFound bytes.now) }
{
    let Some((record, moment)) = jr_moments::read_record(alloc, bytes)? else {
        return Ok(Found::Nothing);
    };
    let size = jr_moments::record_size(&record) as usize - 1;
    let (front, behind) = bytes.split_at(size);
    let Some((sum, _)) = behind.split_first_chunk::<4>() else {
        return Ok(Found::Nothing);
    };
    if !is_sum(front, sum) {
        return Ok(Found::Changed);
    }
    Ok(Found::Whole { record, moment })
}

/// Whether these four bytes are the sum of `front`.
fn is_sum(front: &[u8], four: &[u8; 4]) -> bool
    ensures value { IsTrue result ↔ (four.now ≡ to_le_bytes w32 (crc_of front.now)) }
{
    *four == crc32c(front).to_le_bytes()
}

//! The variable-length data of a block.

ghost use Rattle.std.specs.Prelude.{◌≡◌};
ghost use Rattle.sbe_value.specs.declared.datum.Datum.TheVariants.{Present};
ghost use Rattle.sbe_grammar.specs.Reading.{read_datum, read_if_in, read_data};
ghost use Rattle.sbe_decode.specs.Answers.{Gives, Tells};
ghost use Rattle.sbe_decode.specs.Walks.{behind};

use crate::bytes::{Reading, is_in, read_bytes, unsigned};
use crate::error::DecodeError;
use sbe_grammar::DecodeFault;
use sbe_layout::DataPlan;
use sbe_prim::size;
use sbe_value::{Bytes, Datum};
use std::alloc::Global;

/// The bytes of a datum that the message has, and those behind them.
///
/// # Errors
/// `Truncated` where its length or its bytes are not all there.
pub fn datum_bytes<'a>(
    reading: Reading,
    plan: &DataPlan,
    left: &'a [u8],
) -> Result<(&'a [u8], &'a [u8]), DecodeFault>
    ensures { Tells (λ x. (Present x.0.now, x.1.now)) result
        (read_datum reading.order reading.total plan.now left.now) }
{
    let (length, after) = read_bytes(reading.total, size(plan.length) as u64, left)?;
    let count = unsigned(reading.order, plan.length, length);
    read_bytes(reading.total, count, after)
}

// A datum, absent where the message's version does not have it.
fn datum<'a>(
    alloc: Global,
    reading: Reading,
    plan: &DataPlan,
    left: &'a [u8],
) -> Result<(Datum, &'a [u8]), DecodeError>
    ensures { Gives (λ x. (x.0, x.1.now)) result
        (read_if_in reading.version plan.now (read_datum reading.order reading.total plan.now left.now) left.now) }
{
    if !is_in(reading.version, plan.since) {
        return Ok((Datum::Absent, left));
    }
    let (text, rest) = datum_bytes(reading, plan, left)?;
    Ok((Datum::Present(Bytes::from_slice(alloc, text)?), rest))
}

/// The data of a block, and the bytes behind them.
pub fn read_data<'a>(
    alloc: Global,
    reading: Reading,
    plans: &[DataPlan],
    left: &'a [u8],
) -> Result<(Vec<Datum>, &'a [u8]), DecodeError>
    ensures { Gives (λ x. (x.0.items, x.1.now)) result
        (read_data reading.order reading.version reading.total plans.now left.now) }
{
    let mut data = Vec::with_capacity(alloc, plans.len())?;
    let mut left = left;
    for plan in plans {
        let (datum, rest) = datum(alloc, reading, plan, left)?;
        data.push(datum)?;
        left = rest;
    }
    Ok((data, left))
}

// The bytes behind a datum.
fn skip_datum<'a>(
    reading: Reading,
    plan: &DataPlan,
    left: &'a [u8],
) -> Result<&'a [u8], DecodeFault>
    ensures { Tells (λ rest. rest.now) result
        (behind (read_if_in reading.version plan.now
        (read_datum reading.order reading.total plan.now left.now) left.now)) }
{
    if !is_in(reading.version, plan.since) {
        return Ok(left);
    }
    let (_, rest) = datum_bytes(reading, plan, left)?;
    Ok(rest)
}

/// The bytes behind the data of a block.
pub fn skip_data<'a>(
    reading: Reading,
    plans: &[DataPlan],
    left: &'a [u8],
) -> Result<&'a [u8], DecodeFault>
    ensures { Tells (λ rest. rest.now) result
        (behind (read_data reading.order reading.version reading.total plans.now left.now)) }
{
    let mut left = left;
    for plan in plans {
        left = skip_datum(reading, plan, left)?;
    }
    Ok(left)
}

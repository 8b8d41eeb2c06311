//! The block of a message or of an entry, and the values of its items.

ghost use Rattle.std.specs.Prelude.{◌≡◌, IfOk};
ghost use Rattle.sbe_grammar.specs.Values.{items_in};
ghost use Rattle.sbe_grammar.specs.Reading.{needed_by, read_whole};
ghost use Rattle.sbe_decode.specs.Answers.{Tells};

use crate::bytes::{Reading, is_in, place, read_bytes};
use crate::value::value_in;
use sbe_grammar::DecodeFault;
use sbe_layout::{ItemPlan, Mark};
use sbe_value::Item;
use std::alloc::{AllocError, Global};

/// Where the last of the fields ends that a message of this version has.
pub fn needed_by(version: u16, marks: &[Mark]) -> u128
    ensures { result ≡ needed_by version marks.now }
{
    let mut needed = 0u128;
    for mark in marks {
        if is_in(version, mark.since) {
            needed = needed.max(mark.end);
        }
    }
    needed
}

/// The bytes of a block of this size, and those behind it.
pub fn read_whole<'a>(
    reading: Reading,
    size: u64,
    marks: &[Mark],
    left: &'a [u8],
) -> Result<(&'a [u8], &'a [u8]), DecodeFault>
    ensures { Tells (λ x. (x.0.now, x.1.now)) result
        (read_whole reading.version reading.total size marks.now left.now) }
{
    let needed = needed_by(reading.version, marks);
    if (size as u128) < needed {
        return Err(DecodeFault::ShortBlock {
            at: place(reading.total, left),
            found: size,
            needed,
        });
    }
    read_bytes(reading.total, size, left)
}

/// The values of the items of a block, in schema order.
pub fn items_in(
    alloc: Global,
    reading: Reading,
    block: &[u8],
    plans: &[ItemPlan],
) -> Result<Vec<Item>, AllocError>
    ensures { IfOk result (λ items. items.items ≡ items_in reading.order reading.version block.now plans.now) }
{
    let mut items = Vec::with_capacity(alloc, plans.len())?;
    for plan in plans {
        items.push(value_in(reading, block, plan).to_item(alloc)?)?;
    }
    Ok(items)
}

//! The items and the data of a block.

ghost use Rattle.std.specs.Prelude.{◌≡◌, ◌-◌, ◌≤◌, true, length};
ghost use Rattle.text_words.specs.Lines.{lines_in};
ghost use Rattle.sbe_grammar.specs.Canonical.{item_bytes, block_bytes, data_bytes};
ghost use Rattle.sbe_encode.specs.Faults.{item_fault, items_fault, datum_fault, data_fault};
ghost use Rattle.sbe_text.specs.Held.{is_word};
ghost use Rattle.sbe_text.specs.Read.{read_each};
ghost use Rattle.sbe_text.specs.Reading.{read_item, read_datum};
ghost use Rattle.sbe_from_text.specs.Written.{Writes, datum_bytes};

use crate::numbers::natural_line;
use sbe_encode::{Extent, end_block, holds_numbers, write_datum, write_integer, write_zeros};
use sbe_layout::{DataPlan, ItemPlan, Listing};
use sbe_prim::Order;
use sbe_text::{datum, element, value};
use std::alloc::Global;

// Writes the item on the first line of a text.
fn write_item<'a>(
    alloc: Global,
    order: Order,
    listings: &[Listing],
    before: &[u8],
    plan: &ItemPlan,
    left: &'a [u8],
    out: &mut Vec<u8>,
) -> Option<&'a [u8]>
    requires { is_word before.now ≡ true }
    ensures { Writes (item_fault listings.now plan.now) (item_bytes order plan.now) (read_item before.now plan.now (lines_in left.now)) out.old.items out.new.items result }
{
    // most items are numbers
    if holds_numbers(plan) {
        if let Some((number, rest)) = natural_line(before, plan.name.as_slice(), left) {
            write_integer(order, listings, plan, number as i128, out)?;
            return Some(rest);
        }
    }
    write_any(alloc, order, listings, before, plan, left, out)
}

// The same of any item.
fn write_any<'a>(
    alloc: Global,
    order: Order,
    listings: &[Listing],
    before: &[u8],
    plan: &ItemPlan,
    left: &'a [u8],
    out: &mut Vec<u8>,
) -> Option<&'a [u8]>
    ensures { Writes (item_fault listings.now plan.now) (item_bytes order plan.now) (read_item before.now plan.now (lines_in left.now)) out.old.items out.new.items result }
{
    let Ok((text, rest)) = element(before, &plan.name, left) else {
        return None;
    };
    let Ok(Some(item)) = value(alloc, plan, text) else {
        return None;
    };
    match sbe_encode::write_item(alloc, order, listings, plan, &item, out) {
        Ok(()) => Some(rest),
        Err(_) => None,
    }
}

/// Writes the items of a block, each at its offset, and zeros wherever no item stands.
pub fn write_items<'a>(
    alloc: Global,
    order: Order,
    listings: &[Listing],
    block: Extent,
    plans: &[ItemPlan],
    before: &[u8],
    left: &'a [u8],
    out: &mut Vec<u8>,
) -> Option<&'a [u8]>
    requires word { is_word before.now ≡ true }
    requires start { block.start ≤ length out.old.items }
    ensures { Writes (items_fault listings.now plans.now) (block_bytes order block.size (length out.old.items - block.start) plans.now) (read_each (read_item before.now) plans.now (lines_in left.now)) out.old.items out.new.items result }
{
    let mut left = left;
    for plan in plans {
        let at = (out.len() - block.start) as u128;
        let Ok(()) = write_zeros(plan.offset.saturating_sub(at), out) else {
            return None;
        };
        left = write_item(alloc, order, listings, before, plan, left, out)?;
    }
    match end_block(block, out) {
        Ok(()) => Some(left),
        Err(_) => None,
    }
}

// Writes the datum on the first line of a text.
fn write_data_line<'a>(
    alloc: Global,
    order: Order,
    before: &[u8],
    plan: &DataPlan,
    left: &'a [u8],
    out: &mut Vec<u8>,
) -> Option<&'a [u8]>
    ensures { Writes (datum_fault plan.now) (datum_bytes order plan.now) (read_datum before.now plan.now (lines_in left.now)) out.old.items out.new.items result }
{
    let Ok((text, rest)) = element(before, &plan.name, left) else {
        return None;
    };
    let Ok(Some(told)) = datum(alloc, text) else {
        return None;
    };
    match write_datum(alloc, order, plan, &told, out) {
        Ok(()) => Some(rest),
        Err(_) => None,
    }
}

/// Writes the data of a block.
pub fn write_data<'a>(
    alloc: Global,
    order: Order,
    before: &[u8],
    plans: &[DataPlan],
    left: &'a [u8],
    out: &mut Vec<u8>,
) -> Option<&'a [u8]>
    ensures { Writes (data_fault plans.now) (data_bytes order plans.now) (read_each (read_datum before.now) plans.now (lines_in left.now)) out.old.items out.new.items result }
{
    let mut left = left;
    for plan in plans {
        left = write_data_line(alloc, order, before, plan, left, out)?;
    }
    Some(left)
}

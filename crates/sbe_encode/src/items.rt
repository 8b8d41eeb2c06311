//! The items of a block, each at its offset.

ghost use Rattle.std.specs.Prelude.{◌≡◌, true, ◌++◌, ◌-◌, ◌≤◌, length, IsTrue, IfSome, OnOk};
ghost use Rattle.sbe_value.specs.declared.item.Item.TheVariants.{Num};
ghost use Rattle.sbe_grammar.specs.Canonical.{item_bytes, block_bytes, is_admitted, is_written, zeros};
ghost use Rattle.sbe_encode.specs.Faults.{item_fault, items_fault};
ghost use Rattle.sbe_encode.specs.Writes.{Writes};

use crate::bytes::{write_number, write_zeros};
use crate::fault::{EncodeError, range_at, shape_at};
use crate::range::{admits_number, is_admitted, null_in, prim_of};
use crate::shape::is_shaped;
use sbe_layout::{ItemPlan, Listing};
use sbe_prim::Order;
use sbe_value::Item;
use std::alloc::{AllocError, Global};

// Writes a value that may be written.
fn write_value(
    order: Order,
    plan: &ItemPlan,
    item: &Item,
    out: &mut Vec<u8>,
) -> Result<(), AllocError>
    requires { IsTrue (is_written plan.now.kind item.now) }
    ensures { OnOk result (out.new.items ≡ out.old.items ++ item_bytes order plan.now item.now) }
{
    match item {
        Item::Num(z) => write_number(prim_of(plan.kind), order, *z, out),
        Item::Null => write_number(prim_of(plan.kind), order, null_in(plan.kind), out),
        Item::Absent => Ok(()),
        Item::Text(text) => {
            out.extend_from_slice(text.as_slice())?;
            write_zeros(plan.size.saturating_sub(text.len() as u128), out)
        }
        Item::Raw(bytes) => out.extend_from_slice(bytes.as_slice()),
    }
}

/// Writes an item.
pub fn write_item(
    alloc: Global,
    order: Order,
    listings: &[Listing],
    plan: &ItemPlan,
    item: &Item,
    out: &mut Vec<u8>,
) -> Result<(), EncodeError>
    ensures { Writes result out.old.items out.new.items (item_bytes order plan.now item.now) (item_fault listings.now plan.now item.now) }
{
    if !is_shaped(plan, item) {
        return Err(shape_at(alloc, &plan.name));
    }
    if !is_admitted(listings, plan.kind, item) {
        return Err(range_at(alloc, &plan.name));
    }
    write_value(order, plan, item, out)?;
    Ok(())
}

/// Writes the number of an item. None where it may not have that number, or memory runs out.
pub fn write_integer(
    order: Order,
    listings: &[Listing],
    plan: &ItemPlan,
    value: i128,
    out: &mut Vec<u8>,
) -> Option<()>
    ensures admitted { IfSome result (λ _. is_admitted listings.now plan.now.kind (Num value) ≡ true) }
    ensures bytes { IfSome result (λ _. out.new.items ≡ out.old.items ++ item_bytes order plan.now (Num value)) }
{
    if !admits_number(listings, plan.kind, value) {
        return None;
    }
    write_number(prim_of(plan.kind), order, value, out).ok()
}

/// Where a block stands in what is written.
#[derive(Clone, Copy)]
pub struct Extent {
    /// The place of its first byte.
    pub start: usize,
    /// How many bytes it has.
    pub size: u128,
}

/// Writes zeros up to the end of a block.
pub fn end_block(block: Extent, out: &mut Vec<u8>) -> Result<(), AllocError>
    requires { block.start ≤ length out.old.items }
    ensures { OnOk result (out.new.items ≡ out.old.items ++ zeros (block.size - (length out.old.items - block.start))) }
{
    let at = (out.len() - block.start) as u128;
    write_zeros(block.size.saturating_sub(at), out)
}

/// Writes the items of a block, and zeros wherever no item stands.
pub fn write_items(
    alloc: Global,
    order: Order,
    listings: &[Listing],
    block: Extent,
    plans: &[ItemPlan],
    items: &[Item],
    out: &mut Vec<u8>,
) -> Result<(), EncodeError>
    requires { block.start ≤ length out.old.items }
    ensures { Writes result out.old.items out.new.items (block_bytes order block.size (length out.old.items - block.start) plans.now items.now) (items_fault listings.now plans.now items.now) }
{
    let mut left = items;
    for plan in plans {
        let [item, others @ ..] = left else {
            return Ok(end_block(block, out)?);
        };
        let at = (out.len() - block.start) as u128;
        write_zeros(plan.offset.saturating_sub(at), out)?;
        write_item(alloc, order, listings, plan, item, out)?;
        left = others;
    }
    Ok(end_block(block, out)?)
}

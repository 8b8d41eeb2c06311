//! The groups of a block, the entries of a group, and the block of an entry or of a message.

ghost use Rattle.std.specs.Prelude.{◌≡◌, ◌++◌, IsTrue, OnOk};
ghost use Rattle.sbe_value.specs.Views.{groups_of, blocks_of};
ghost use Rattle.sbe_layout.specs.Views.{head_of, plans_of};
ghost use Rattle.sbe_grammar.specs.Canonical.{holds_dimension, groups_bytes, entries_bytes};
ghost use Rattle.sbe_encode.specs.Faults.{under, has_counts, groups_fault, entries_fault};
ghost use Rattle.sbe_encode.specs.Blocks.{parts_bytes, parts_fault, dimension_bytes, group_bytes, group_fault};
ghost use Rattle.sbe_encode.specs.Writes.{Writes};

use crate::bytes::{can_count, write_count};
use crate::data::write_data;
use crate::fault::{EncodeError, error_under, shape_at, shape_here};
use crate::items::{Extent, write_items};
use sbe_layout::{BlockPlan, GroupPlan, Listing};
use sbe_prim::Order;
use sbe_value::{Block, Group};
use std::alloc::{AllocError, Global};

// Writes the groups of a block.
#[cycle(blocks)]
fn write_groups(
    alloc: Global,
    order: Order,
    listings: &[Listing],
    plans: &[GroupPlan],
    groups: &[Group],
    out: &mut Vec<u8>,
) -> Result<(), EncodeError>
    ensures { Writes result out.old.items out.new.items (groups_bytes order (plans_of plans.now) (groups_of groups.now)) (groups_fault listings.now (plans_of plans.now) (groups_of groups.now)) }
{
    match (plans, groups) {
        ([plan, plans @ ..], [group, groups @ ..]) => {
            write_group(alloc, order, listings, plan, group, out)?;
            write_groups(alloc, order, listings, plans, groups, out)
        }
        _ => Ok(()),
    }
}

// Writes a group: its dimension and its entries.
#[cycle(blocks)]
fn write_group(
    alloc: Global,
    order: Order,
    listings: &[Listing],
    plan: &GroupPlan,
    group: &Group,
    out: &mut Vec<u8>,
) -> Result<(), EncodeError>
    ensures { Writes result out.old.items out.new.items (group_bytes order (head_of plan.now) plan.now.block.groups group.now) (group_fault listings.now (head_of plan.now) plan.now.block.groups group.now) }
{
    match group {
        Group::Absent => Err(shape_at(alloc, &plan.name)),
        Group::Entries(entries) => {
            let count = entries.len() as u128;
            if !holds_dimension(plan, count) {
                return Err(shape_at(alloc, &plan.name));
            }
            write_dimension(order, plan, count, out)?;
            write_entries(alloc, order, listings, plan, entries.as_slice(), out)
        }
    }
}

// Writes the entries of a group.
#[cycle(blocks)]
fn write_entries(
    alloc: Global,
    order: Order,
    listings: &[Listing],
    plan: &GroupPlan,
    entries: &[Block],
    out: &mut Vec<u8>,
) -> Result<(), EncodeError>
    ensures { Writes result out.old.items out.new.items (entries_bytes order (head_of plan.now) plan.now.block.groups (blocks_of entries.now)) (entries_fault listings.now (head_of plan.now) plan.now.block.groups 0 (blocks_of entries.now)) }
{
    for (at, entry) in entries.iter().enumerate() {
        write_entry(alloc, order, listings, plan, at as u64, entry, out)?;
    }
    Ok(())
}

// Writes an entry of a group; a fault of it is told under the group's name and the entry's place.
#[cycle(blocks)]
fn write_entry(
    alloc: Global,
    order: Order,
    listings: &[Listing],
    plan: &GroupPlan,
    at: u64,
    entry: &Block,
    out: &mut Vec<u8>,
) -> Result<(), EncodeError>
    ensures { Writes result out.old.items out.new.items (parts_bytes order plan.now.block entry.now) (under plan.now.name at (parts_fault listings.now plan.now.block entry.now)) }
{
    match write_block(alloc, order, listings, &plan.block, entry, out) {
        Ok(()) => Ok(()),
        Err(e) => Err(error_under(alloc, &plan.name, at, e)),
    }
}

/// Writes a block with its groups and its data.
#[cycle(blocks)]
pub fn write_block(
    alloc: Global,
    order: Order,
    listings: &[Listing],
    plan: &BlockPlan,
    block: &Block,
    out: &mut Vec<u8>,
) -> Result<(), EncodeError>
    ensures { Writes result out.old.items out.new.items (parts_bytes order plan.now block.now) (parts_fault listings.now plan.now block.now) }
{
    if !has_counts(plan, block) {
        return Err(shape_here(alloc));
    }
    let extent = Extent {
        start: out.len(),
        size: plan.block_length,
    };
    let items = block.items.as_slice();
    write_items(
        alloc,
        order,
        listings,
        extent,
        plan.items.as_slice(),
        items,
        out,
    )?;
    write_groups(
        alloc,
        order,
        listings,
        plan.groups.as_slice(),
        block.groups.as_slice(),
        out,
    )?;
    write_data(
        alloc,
        order,
        plan.vars.as_slice(),
        block.vars.as_slice(),
        out,
    )
}

// Whether a block has as many items, groups and data as its plan.
#[tactic(auto, using(crate::proofs::Counts::length_of_plans))]
fn has_counts(plan: &BlockPlan, block: &Block) -> bool
    ensures { result ≡ has_counts plan.now.items plan.now.groups plan.now.vars block.now.items block.now.groups block.now.vars }
{
    block.items.len() == plan.items.len()
        && block.groups.len() == plan.groups.as_slice().len()
        && block.vars.len() == plan.vars.len()
}

/// Whether the dimension of a group of so many entries can be written.
pub fn holds_dimension(plan: &GroupPlan, count: u128) -> bool
    ensures { result ≡ holds_dimension (head_of plan.now) count }
{
    can_count(plan.block_prim, plan.block.block_length) && can_count(plan.count_prim, count)
}

/// Writes the dimension of a group of so many entries.
pub fn write_dimension(
    order: Order,
    plan: &GroupPlan,
    count: u128,
    out: &mut Vec<u8>,
) -> Result<(), AllocError>
    requires { IsTrue (holds_dimension (head_of plan.now) count) }
    ensures { OnOk result (out.new.items ≡ out.old.items ++ dimension_bytes order (head_of plan.now) count) }
{
    write_count(plan.block_prim, order, plan.block.block_length, out)?;
    write_count(plan.count_prim, order, count, out)
}

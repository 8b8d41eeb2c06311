//! The groups of a block, the entries of a group, and the block of an entry or of a message.

ghost use Rattle.std.specs.Prelude.{◌≡◌};
ghost use Rattle.sbe_value.specs.Views.{groups_of, blocks_of};
ghost use Rattle.sbe_layout.specs.Views.{head_of, plans_of};
ghost use Rattle.sbe_grammar.specs.Reading.{read_dimension, read_group, read_groups, read_entry, repeated};
ghost use Rattle.sbe_decode.specs.Answers.{Gives, Tells};
ghost use Rattle.sbe_decode.specs.Walks.{dimension_of, entry_of, read_parts};

use crate::bytes::{Reading, is_in, read_bytes, unsigned};
use crate::data::read_data;
use crate::error::DecodeError;
use crate::items::{items_in, read_whole};
use sbe_grammar::DecodeFault;
use sbe_layout::{BlockPlan, GroupPlan};
use sbe_prim::size;
use sbe_value::{Block, Blocks, Datums, Group, Groups, Items};
use std::alloc::Global;

/// A group's dimension (SBE 1.0, "Repeating group dimension encoding").
#[derive(Clone, Copy)]
pub struct Dimension {
    /// The length of an entry's block in bytes.
    pub size: u64,
    /// The number of entries.
    pub count: u64,
}

/// The dimension of a group, and the bytes behind it.
pub fn read_dimension<'a>(
    reading: Reading,
    plan: &GroupPlan,
    left: &'a [u8],
) -> Result<(Dimension, &'a [u8]), DecodeFault>
    ensures { Tells (λ x. (dimension_of x.0, x.1.now)) result
        (read_dimension reading.order reading.total (head_of plan.now) left.now) }
{
    let size_bytes = size(plan.block_prim);
    let count_bytes = size(plan.count_prim);
    let (bytes, rest) = read_bytes(reading.total, (size_bytes + count_bytes) as u64, left)?;
    let (size_part, count_part) = bytes.split_at(size_bytes);
    Ok((
        Dimension {
            size: unsigned(reading.order, plan.block_prim, size_part),
            count: unsigned(reading.order, plan.count_prim, count_part),
        },
        rest,
    ))
}

// The groups of a block, and the bytes behind them.
#[cycle(blocks)]
fn read_groups<'a>(
    alloc: Global,
    reading: Reading,
    plans: &[GroupPlan],
    left: &'a [u8],
) -> Result<(Vec<Group>, &'a [u8]), DecodeError>
    ensures { Gives (λ x. (groups_of x.0.items, x.1.now)) result
        (read_groups reading.order reading.version reading.total (plans_of plans.now) left.now) }
{
    let mut groups = Vec::with_capacity(alloc, plans.len())?;
    let mut left = left;
    for plan in plans {
        let (group, rest) = read_group(alloc, reading, plan, left)?;
        groups.push(group)?;
        left = rest;
    }
    Ok((groups, left))
}

// A group, absent where the message's version does not have it.
#[cycle(blocks)]
fn read_group<'a>(
    alloc: Global,
    reading: Reading,
    plan: &GroupPlan,
    left: &'a [u8],
) -> Result<(Group, &'a [u8]), DecodeError>
    ensures { Gives (λ x. (x.0, x.1.now)) result
        (read_group reading.order reading.version reading.total (head_of plan.now)
        (read_groups reading.order reading.version reading.total plan.now.block.groups) left.now) }
{
    if !is_in(reading.version, plan.since) {
        return Ok((Group::Absent, left));
    }
    let (dimension, after) = read_dimension(reading, plan, left)?;
    let (entries, rest) = read_entries(alloc, reading, &plan.block, dimension, after)?;
    Ok((Group::Entries(Blocks::from(entries)), rest))
}

// The entries of a group, and the bytes behind them. Their room is reserved first, so that want of memory for many
// entries of no bytes is told at once.
#[cycle(blocks)]
fn read_entries<'a>(
    alloc: Global,
    reading: Reading,
    plan: &BlockPlan,
    dimension: Dimension,
    left: &'a [u8],
) -> Result<(Vec<Block>, &'a [u8]), DecodeError>
    ensures { Gives (λ x. (blocks_of x.0.items, x.1.now)) result
        (repeated dimension.count
        (read_parts reading.order reading.version reading.total dimension.size plan.now) left.now) }
{
    let mut entries = Vec::with_capacity(alloc, dimension.count as usize)?;
    let mut left = left;
    for _ in 0..dimension.count {
        let (entry, rest) = read_block(alloc, reading, plan, dimension.size, left)?;
        entries.push(entry)?;
        left = rest;
    }
    Ok((entries, left))
}

/// A block of this size with its groups and its data, and the bytes behind them.
#[cycle(blocks)]
pub fn read_block<'a>(
    alloc: Global,
    reading: Reading,
    plan: &BlockPlan,
    size: u64,
    left: &'a [u8],
) -> Result<(Block, &'a [u8]), DecodeError>
    ensures { Gives (λ x. (entry_of x.0, x.1.now)) result
        (read_parts reading.order reading.version reading.total size plan.now left.now) }
{
    let (block, left) = read_whole(reading, size, plan.marks.as_slice(), left)?;
    let items = items_in(alloc, reading, block, plan.items.as_slice())?;
    let (groups, left) = read_groups(alloc, reading, plan.groups.as_slice(), left)?;
    let (vars, left) = read_data(alloc, reading, plan.vars.as_slice(), left)?;
    Ok((
        Block {
            items: Items::from(items),
            groups: Groups::from(groups),
            vars: Datums::from(vars),
        },
        left,
    ))
}

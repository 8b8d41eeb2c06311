//! The walk over a message's groups that only finds where they end; it takes no memory.

ghost use Rattle.std.specs.Prelude.{◌≡◌};
ghost use Rattle.sbe_layout.specs.Views.{head_of, plans_of};
ghost use Rattle.sbe_grammar.specs.Reading.{read_group, read_groups, repeated};
ghost use Rattle.sbe_decode.specs.Answers.{Tells};
ghost use Rattle.sbe_decode.specs.Walks.{behind, read_parts};

use crate::blocks::{Dimension, read_dimension};
use crate::bytes::{Reading, is_in};
use crate::data::skip_data;
use crate::items::read_whole;
use sbe_grammar::DecodeFault;
use sbe_layout::{BlockPlan, GroupPlan};

/// The bytes behind the groups of a block.
#[cycle(skips)]
pub fn skip_groups<'a>(
    reading: Reading,
    plans: &[GroupPlan],
    left: &'a [u8],
) -> Result<&'a [u8], DecodeFault>
    ensures { Tells (λ rest. rest.now) result
        (behind (read_groups reading.order reading.version reading.total (plans_of plans.now) left.now)) }
{
    let mut left = left;
    for plan in plans {
        left = skip_group(reading, plan, left)?;
    }
    Ok(left)
}

// The bytes behind a group, which takes none where the message's version does not have it.
#[cycle(skips)]
fn skip_group<'a>(
    reading: Reading,
    plan: &GroupPlan,
    left: &'a [u8],
) -> Result<&'a [u8], DecodeFault>
    ensures { Tells (λ rest. rest.now) result
        (behind (read_group reading.order reading.version reading.total (head_of plan.now)
        (read_groups reading.order reading.version reading.total plan.now.block.groups) left.now)) }
{
    if !is_in(reading.version, plan.since) {
        return Ok(left);
    }
    let (dimension, after) = read_dimension(reading, plan, left)?;
    skip_entries(reading, &plan.block, dimension, after)
}

// The bytes behind the entries of a group.
#[cycle(skips)]
fn skip_entries<'a>(
    reading: Reading,
    plan: &BlockPlan,
    dimension: Dimension,
    left: &'a [u8],
) -> Result<&'a [u8], DecodeFault>
    ensures { Tells (λ rest. rest.now) result
        (behind (repeated dimension.count
        (read_parts reading.order reading.version reading.total dimension.size plan.now) left.now)) }
{
    let mut left = left;
    for _ in 0..dimension.count {
        left = skip_block(reading, plan, dimension.size, left)?;
    }
    Ok(left)
}

// The bytes behind an entry: its block, its groups and its data.
#[cycle(skips)]
fn skip_block<'a>(
    reading: Reading,
    plan: &BlockPlan,
    size: u64,
    left: &'a [u8],
) -> Result<&'a [u8], DecodeFault>
    ensures { Tells (λ rest. rest.now) result
        (behind (read_parts reading.order reading.version reading.total size plan.now left.now)) }
{
    let (_, left) = read_whole(reading, size, plan.marks.as_slice(), left)?;
    let left = skip_groups(reading, plan.groups.as_slice(), left)?;
    skip_data(reading, plan.vars.as_slice(), left)
}

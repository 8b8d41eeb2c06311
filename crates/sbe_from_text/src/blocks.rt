//! Blocks with their groups.

ghost use Rattle.std.specs.Prelude.{◌≡◌, true, Ok, IfSome};
ghost use Rattle.text_words.specs.Lines.{lines_in};
ghost use Rattle.sbe_layout.specs.Views.{head_of, plans_of};
ghost use Rattle.sbe_grammar.specs.Canonical.{groups_bytes, entries_bytes};
ghost use Rattle.sbe_encode.specs.Faults.{groups_fault, entries_fault};
ghost use Rattle.sbe_encode.specs.Blocks.{group_bytes, group_fault};
ghost use Rattle.sbe_text.specs.declared.token.Count.TheVariants as count;
ghost use Rattle.sbe_text.specs.Held.{is_word};
ghost use Rattle.sbe_text.specs.Tokens.{count_of};
ghost use Rattle.sbe_text.specs.Reading.{read_element, read_elements, read_entries, read_group, read_groups};
ghost use Rattle.sbe_from_text.specs.Written.{Writes, entry_bytes, entry_fault};

use crate::items::{write_data, write_items};
use crate::message::Sheet;
use crate::numbers::{is_word, natural_line};
use sbe_encode::{Extent, holds_dimension, write_dimension};
use sbe_layout::{BlockPlan, GroupPlan, Listing};
use sbe_prim::Order;
use sbe_text::{Count, element, entry_count, open_entry, open_group};
use sbe_value::Bytes;
use std::alloc::Global;

/// How many entries of a group are written here at most. More of them in a message of allowed length have no bytes.
const MOST: u64 = 65_535;

/// Writes a block with its groups and its data.
#[cycle(blocks)]
pub fn write_block<'a>(
    alloc: Global,
    order: Order,
    listings: &[Listing],
    plan: &BlockPlan,
    left: &'a [u8],
    sheet: &mut Sheet,
) -> Option<&'a [u8]>
    requires { is_word sheet.old.names.items ≡ true }
    ensures bytes { Writes (entry_fault listings.now plan.now) (entry_bytes order plan.now) (read_elements sheet.old.names.items plan.now.items (read_groups sheet.old.names.items plan.now.groups) plan.now.vars (lines_in left.now)) sheet.old.bytes.items sheet.new.bytes.items result }
    ensures names { IfSome result (λ _. sheet.new.names.items ≡ sheet.old.names.items) }
{
    let extent = Extent {
        start: sheet.bytes.len(),
        size: plan.block_length,
    };
    let left = write_items(
        alloc,
        order,
        listings,
        extent,
        plan.items.as_slice(),
        sheet.names.as_slice(),
        left,
        &mut sheet.bytes,
    )?;
    let left = write_groups(alloc, order, listings, plan.groups.as_slice(), left, sheet)?;
    let rest = write_data(
        alloc,
        order,
        sheet.names.as_slice(),
        plan.vars.as_slice(),
        left,
        &mut sheet.bytes,
    )?;
    Some(rest)
}

// Writes the groups of a block.
#[cycle(blocks)]
fn write_groups<'a>(
    alloc: Global,
    order: Order,
    listings: &[Listing],
    plans: &[GroupPlan],
    left: &'a [u8],
    sheet: &mut Sheet,
) -> Option<&'a [u8]>
    requires { is_word sheet.old.names.items ≡ true }
    ensures bytes { Writes (groups_fault listings.now (plans_of plans.now)) (groups_bytes order (plans_of plans.now)) (read_groups sheet.old.names.items (plans_of plans.now) (lines_in left.now)) sheet.old.bytes.items sheet.new.bytes.items result }
    ensures names { IfSome result (λ _. sheet.new.names.items ≡ sheet.old.names.items) }
{
    let mut left = left;
    for plan in plans {
        left = write_group(alloc, order, listings, plan, left, sheet)?;
    }
    Some(left)
}

// The number of entries on the line of a group that is there, and the text behind that line.
fn count_line<'a>(before: &[u8], name: &Bytes, left: &'a [u8]) -> Option<(u64, &'a [u8])>
    requires { is_word before.now ≡ true }
    ensures { IfSome result (λ x. read_element before.now name.now count_of (lines_in left.now) ≡ Ok (count.Entries x.0, lines_in x.1.now)) }
{
    if let Some(told) = natural_line(before, name.as_slice(), left) {
        return Some(told);
    }
    let Ok((text, rest)) = element(before, name, left) else {
        return None;
    };
    match entry_count(text)? {
        Count::Entries(count) => Some((u64::try_from(count).ok()?, rest)),
        Count::Absent => None,
    }
}

// Writes a group: its dimension, and its entries.
#[cycle(blocks)]
fn write_group<'a>(
    alloc: Global,
    order: Order,
    listings: &[Listing],
    plan: &GroupPlan,
    left: &'a [u8],
    sheet: &mut Sheet,
) -> Option<&'a [u8]>
    requires { is_word sheet.old.names.items ≡ true }
    ensures bytes { Writes (group_fault listings.now (head_of plan.now) plan.now.block.groups) (group_bytes order (head_of plan.now) plan.now.block.groups) (read_group sheet.old.names.items (head_of plan.now) (λ path. read_groups path plan.now.block.groups) (lines_in left.now)) sheet.old.bytes.items sheet.new.bytes.items result }
    ensures names { IfSome result (λ _. sheet.new.names.items ≡ sheet.old.names.items) }
{
    let (count, rest) = count_line(sheet.names.as_slice(), &plan.name, left)?;
    if count > MOST || !holds_dimension(plan, count as u128) {
        return None;
    }
    let Ok(()) = write_dimension(order, plan, count as u128, &mut sheet.bytes) else {
        return None;
    };
    let behind = write_entries(alloc, order, listings, plan, count, rest, sheet)?;
    Some(behind)
}

// Writes so many entries of a group.
#[cycle(blocks)]
fn write_entries<'a>(
    alloc: Global,
    order: Order,
    listings: &[Listing],
    plan: &GroupPlan,
    count: u64,
    left: &'a [u8],
    sheet: &mut Sheet,
) -> Option<&'a [u8]>
    requires { is_word sheet.old.names.items ≡ true }
    ensures bytes { Writes (entries_fault listings.now (head_of plan.now) plan.now.block.groups 0) (entries_bytes order (head_of plan.now) plan.now.block.groups) (read_entries sheet.old.names.items (head_of plan.now) (λ path. read_groups path plan.now.block.groups) count (lines_in left.now)) sheet.old.bytes.items sheet.new.bytes.items result }
    ensures names { IfSome result (λ _. sheet.new.names.items ≡ sheet.old.names.items) }
{
    if !is_word(plan.name.as_slice()) {
        return None;
    }
    let begun = sheet.names.len();
    let Ok(()) = open_group(&plan.name, &mut sheet.names) else {
        return None;
    };
    let opened = sheet.names.len();
    let mut left = left;
    for at in 0..count {
        let Ok(()) = open_entry(opened, at as u128, &mut sheet.names) else {
            return None;
        };
        left = write_block(alloc, order, listings, &plan.block, left, sheet)?;
    }
    sheet.names.truncate(begun);
    Some(left)
}

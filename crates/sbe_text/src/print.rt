//! The lines of a message. All are written straight into one text. What stands before
//! the names of an entry, its path and a dot, is made once an entry, in room that all entries of its group share.
//! Numbers stand with their names where the listings of the schema are given, and without listings alone.

ghost use Rattle.std.specs.Prelude.{◌≡◌, [], ◌∷◌, ◌++◌, codes, decimal, IfOk, OnOk};
ghost use Rattle.sbe_value.specs.Trees.{count_of_blocks};
ghost use Rattle.sbe_value.specs.Views.{groups_of};
ghost use Rattle.sbe_layout.specs.Plans.{message_of};
ghost use Rattle.sbe_layout.specs.Views.{head_of, plans_of};
ghost use Rattle.sbe_grammar.specs.Fits.{Fits};
ghost use Rattle.sbe_decode.specs.Shown.{item_of};
ghost use Rattle.sbe_text.specs.Written.{datum_text, element_line, before_in, item_line, item_lines, lines_of_data, group_lines, entry_lines, message_line, message_lines, lines_of_message, named_lines_of_message};

use crate::names::write_names;
use crate::path::begin_names;
use crate::values::{seen, write_datum, write_number_line, write_piece, write_value};
use sbe_decode::Value;
use sbe_layout::{BlockPlan, DataPlan, GroupPlan, ItemPlan, Listing, Plan};
use sbe_value::{Block, Blocks, Bytes, Datum, Group, Item, Lines, Message};
use std::alloc::{AllocError, Global};

/// The lines of a message (this project's profile): `message NAME`, then its
/// items, its groups and its data in schema order, each as `PATH = VALUE`, then
/// `end`. A group's line has the number of its entries, and their elements
/// follow it, their paths behind `group[i].`, i from 0. The message needs to fit
/// the plan.
pub fn print_message(alloc: Global, plan: &Plan, message: &Message) -> Result<Lines, AllocError>
    requires fits { Fits plan.now message.now }
    ensures lines { IfOk result (λ lines. lines ≡ lines_of_message plan.now message.now) }
{
    let mut lines = Vec::new(alloc);
    write_lines(alloc, plan, message, &mut lines)?;
    Ok(Lines::from(lines))
}

/// Adds the lines that [`print_message`] makes of a message.
pub fn write_lines(
    alloc: Global,
    plan: &Plan,
    message: &Message,
    lines: &mut Vec<u8>,
) -> Result<(), AllocError>
    requires fits { Fits plan.now message.now }
    ensures lines { OnOk result (lines.new.items ≡ lines.old.items ++ lines_of_message plan.now message.now) }
{
    write_message(alloc, plan, &[], message, lines)
}

/// Adds these lines with names: ` NAME` behind the number of an enum, and behind that of a set one for each bit that is set.
pub fn write_named_lines(
    alloc: Global,
    plan: &Plan,
    message: &Message,
    lines: &mut Vec<u8>,
) -> Result<(), AllocError>
    requires fits { Fits plan.now message.now }
    ensures lines { OnOk result (lines.new.items ≡ lines.old.items ++ named_lines_of_message plan.now message.now) }
{
    write_message(alloc, plan, plan.listings.as_slice(), message, lines)
}

// Writes the lines of a message.
fn write_message(
    alloc: Global,
    plan: &Plan,
    listings: &[Listing],
    message: &Message,
    lines: &mut Vec<u8>,
) -> Result<(), AllocError>
    requires fits { Fits plan.now message.now }
    ensures { OnOk result (lines.new.items ≡ lines.old.items ++ message_lines listings.now message.now (message_of message.now.template plan.now.messages)) }
{
    let Some(layout) = plan.messages.find(message.template) else {
        unreachable!()
    };
    write_name(layout.name.as_slice(), lines)?;
    write_block(alloc, listings, b"", &layout.root, &message.root, lines)?;
    lines.extend_from_slice(b"end\n")
}

/// Writes the line of a message itself.
pub fn write_name(name: &[u8], lines: &mut Vec<u8>) -> Result<(), AllocError>
    ensures { OnOk result (lines.new.items ≡ lines.old.items ++ message_line name.now) }
{
    lines.extend_from_slice(b"message ")?;
    lines.extend_from_slice(name)?;
    lines.extend_from_slice(b"\n")
}

// Writes the lines of the elements of a block.
#[cycle(blocks)]
fn write_block(
    alloc: Global,
    listings: &[Listing],
    before: &[u8],
    plan: &BlockPlan,
    block: &Block,
    lines: &mut Vec<u8>,
) -> Result<(), AllocError>
    ensures { OnOk result (lines.new.items ≡ lines.old.items
        ++ item_lines listings.now before.now block.now.items plan.now.items
        ++ group_lines listings.now before.now block.now.groups plan.now.groups
        ++ lines_of_data before.now block.now.vars plan.now.vars) }
{
    write_items(
        listings,
        before,
        plan.items.as_slice(),
        block.items.as_slice(),
        lines,
    )?;
    write_groups(
        alloc,
        listings,
        before,
        plan.groups.as_slice(),
        block.groups.as_slice(),
        lines,
    )?;
    write_data(before, plan.vars.as_slice(), block.vars.as_slice(), lines)
}

fn write_items(
    listings: &[Listing],
    before: &[u8],
    plans: &[ItemPlan],
    items: &[Item],
    lines: &mut Vec<u8>,
) -> Result<(), AllocError>
    ensures { OnOk result (lines.new.items ≡ lines.old.items ++ item_lines listings.now before.now items.now plans.now) }
{
    let mut left = items;
    for plan in plans {
        let [item, others @ ..] = left else {
            return Ok(());
        };
        write_item(listings, before, plan, seen(item), lines)?;
        left = others;
    }
    Ok(())
}

/// Writes the line of an item.
pub fn write_item(
    listings: &[Listing],
    before: &[u8],
    plan: &ItemPlan,
    value: Value<'_>,
    lines: &mut Vec<u8>,
) -> Result<(), AllocError>
    ensures { OnOk result (lines.new.items ≡ lines.old.items ++ item_line listings.now before.now plan.now (item_of value.entry)) }
{
    write_path(before, &plan.name, lines)?;
    match (listings, value) {
        // most values are numbers without names
        ([], Value::Num(number)) => write_number_line(number, lines),
        _ => {
            write_value(value, lines)?;
            write_names(listings, plan.kind, value, lines)?;
            lines.extend_from_slice(b"\n")
        }
    }
}

/// Writes the path of an element, and what stands before its value.
pub fn write_path(before: &[u8], name: &Bytes, lines: &mut Vec<u8>) -> Result<(), AllocError>
    ensures { OnOk result (lines.new.items ≡ lines.old.items ++ before.now ++ name.now ++ codes " = ") }
{
    lines.extend_from_slice(before)?;
    lines.extend_from_slice(name.as_slice())?;
    lines.extend_from_slice(b" = ")
}

fn write_data(
    before: &[u8],
    plans: &[DataPlan],
    vars: &[Datum],
    lines: &mut Vec<u8>,
) -> Result<(), AllocError>
    ensures { OnOk result (lines.new.items ≡ lines.old.items ++ lines_of_data before.now vars.now plans.now) }
{
    let mut left = vars;
    for plan in plans {
        let [datum, others @ ..] = left else {
            return Ok(());
        };
        write_path(before, &plan.name, lines)?;
        write_datum(datum, lines)?;
        lines.push(b'\n')?;
        left = others;
    }
    Ok(())
}

// Writes the line of each group, followed by those of its entries.
#[cycle(blocks)]
fn write_groups(
    alloc: Global,
    listings: &[Listing],
    before: &[u8],
    plans: &[GroupPlan],
    groups: &[Group],
    lines: &mut Vec<u8>,
) -> Result<(), AllocError>
    ensures { OnOk result (lines.new.items ≡ lines.old.items ++ group_lines listings.now before.now (groups_of groups.now) (plans_of plans.now)) }
{
    let mut left = groups;
    for g in plans {
        let [group, others @ ..] = left else {
            return Ok(());
        };
        write_path(before, &g.name, lines)?;
        match group {
            Group::Absent => lines.extend_from_slice(b"absent\n")?,
            Group::Entries(blocks) => write_entries(alloc, listings, before, g, blocks, lines)?,
        }
        left = others;
    }
    Ok(())
}

// Writes the number of a group's entries behind its path, and the lines of each.
#[cycle(blocks)]
fn write_entries(
    alloc: Global,
    listings: &[Listing],
    before: &[u8],
    g: &GroupPlan,
    blocks: &Blocks,
    lines: &mut Vec<u8>,
) -> Result<(), AllocError>
    ensures { OnOk result (lines.new.items ≡ lines.old.items
        ++ decimal (count_of_blocks blocks.now) ++ 10 ∷ []
        ++ entry_lines listings.now before.now 0 blocks.now (head_of g.now) g.now.block.groups) }
{
    write_count(blocks.len() as u64, lines)?;
    let mut inner = Vec::new(alloc);
    for (at, block) in blocks.as_slice().iter().enumerate() {
        begin_names(before, g, at as u128, &mut inner)?;
        write_block(alloc, listings, inner.as_slice(), &g.block, block, lines)?;
    }
    Ok(())
}

/// Writes the number of a group's entries, and ends its line.
pub fn write_count(count: u64, lines: &mut Vec<u8>) -> Result<(), AllocError>
    ensures { OnOk result (lines.new.items ≡ lines.old.items ++ decimal count ++ 10 ∷ []) }
{
    let mut room = *b"                    \n";
    write_piece(count, &mut room, lines)
}

//! The lines that tell where the elements of a message stand.
//! All are written into one text. What stands before the names of a block,
//! the path of its group and a dot, is made once a group and handed down.

ghost use Rattle.std.specs.Prelude.{◌≡◌, [], ◌∷◌, ◌++◌, codes, IfOk, OnOk};
ghost use Rattle.sbe_layout.specs.Views.{head_of, plans_of};
ghost use Rattle.layout_text.specs.Lines.{spaced, item_line, data_line, group_line, before_in, lines_of_items, lines_of_data, lines_of_groups, message_line, lines_of_message};

use itoa::Buffer;
use sbe_layout::{DataPlan, GroupPlan, ItemPlan, MessagePlan};
use sbe_value::{Bytes, Lines};
use std::alloc::{AllocError, Global};

/// The lines of one message (this project's profile): `message NAME ID BLOCK`,
/// then its items as `PATH OFFSET SIZE`, its groups as `PATH group BLOCK`, each
/// followed by what its entries hold, and its data as `PATH data`. Offsets, sizes
/// and block lengths are in bytes, and all numbers in decimal. A path is a name
/// behind the names of the groups that it stands in, joined by dots.
pub fn message_lines(alloc: Global, message: &MessagePlan) -> Result<Lines, AllocError>
    ensures { IfOk result (λ lines. lines ≡ lines_of_message message.now) }
{
    let mut lines = Lines::new(alloc);
    write_message(message, &mut lines)?;
    let root = &message.root;
    write_items(b"", root.items.as_slice(), &mut lines)?;
    write_groups(alloc, b"", root.groups.as_slice(), &mut lines)?;
    write_data(b"", root.vars.as_slice(), &mut lines)?;
    Ok(lines)
}

// Writes the line of a message itself.
fn write_message(message: &MessagePlan, lines: &mut Lines) -> Result<(), AllocError>
    ensures { OnOk result (lines.new ≡ lines.old ++ message_line message.now) }
{
    lines.extend_from_slice(b"message ")?;
    lines.extend_from_slice(message.name.as_slice())?;
    write_number(u128::from(message.template), lines)?;
    write_number(message.root.block_length, lines)?;
    lines.push(b'\n')
}

// Writes a number behind a space.
fn write_number(number: u128, lines: &mut Lines) -> Result<(), AllocError>
    ensures { OnOk result (lines.new ≡ lines.old ++ spaced number) }
{
    let mut digits = Buffer::new();
    lines.extend_from_slice(b" ")?;
    lines.extend_from_slice(digits.format(number).as_bytes())
}

fn write_items(before: &[u8], items: &[ItemPlan], lines: &mut Lines) -> Result<(), AllocError>
    ensures { OnOk result (lines.new ≡ lines.old ++ lines_of_items before.now items.now) }
{
    for item in items {
        write_item(before, item, lines)?;
    }
    Ok(())
}

fn write_item(before: &[u8], item: &ItemPlan, lines: &mut Lines) -> Result<(), AllocError>
    ensures { OnOk result (lines.new ≡ lines.old ++ item_line before.now item.now) }
{
    lines.extend_from_slice(before)?;
    lines.extend_from_slice(item.name.as_slice())?;
    write_number(item.offset, lines)?;
    write_number(item.size, lines)?;
    lines.push(b'\n')
}

fn write_data(before: &[u8], vars: &[DataPlan], lines: &mut Lines) -> Result<(), AllocError>
    ensures { OnOk result (lines.new ≡ lines.old ++ lines_of_data before.now vars.now) }
{
    for datum in vars {
        write_datum(before, datum, lines)?;
    }
    Ok(())
}

fn write_datum(before: &[u8], datum: &DataPlan, lines: &mut Lines) -> Result<(), AllocError>
    ensures { OnOk result (lines.new ≡ lines.old ++ data_line before.now datum.now) }
{
    lines.extend_from_slice(before)?;
    lines.extend_from_slice(datum.name.as_slice())?;
    lines.extend_from_slice(b" data")?;
    lines.push(b'\n')
}

// Writes the line of each group, followed by what its entries hold.
#[cycle(groups)]
fn write_groups(
    alloc: Global,
    before: &[u8],
    groups: &[GroupPlan],
    lines: &mut Lines,
) -> Result<(), AllocError>
    ensures { OnOk result (lines.new ≡ lines.old ++ lines_of_groups before.now (plans_of groups.now)) }
{
    for g in groups {
        write_head(before, g, lines)?;
        write_entries(alloc, before, g, lines)?;
    }
    Ok(())
}

// Writes the line of a group itself.
fn write_head(before: &[u8], g: &GroupPlan, lines: &mut Lines) -> Result<(), AllocError>
    ensures { OnOk result (lines.new ≡ lines.old ++ group_line before.now (head_of g.now)) }
{
    lines.extend_from_slice(before)?;
    lines.extend_from_slice(g.name.as_slice())?;
    lines.extend_from_slice(b" group")?;
    write_number(g.block.block_length, lines)?;
    lines.push(b'\n')
}

// Writes what the entries of a group hold.
#[cycle(groups)]
fn write_entries(
    alloc: Global,
    before: &[u8],
    g: &GroupPlan,
    lines: &mut Lines,
) -> Result<(), AllocError>
    ensures { OnOk result (lines.new ≡ lines.old
        ++ lines_of_items (before_in before.now (head_of g.now)) g.now.block.items
        ++ lines_of_groups (before_in before.now (head_of g.now)) g.now.block.groups
        ++ lines_of_data (before_in before.now (head_of g.now)) g.now.block.vars) }
{
    let inner = names_begin(alloc, before, g)?;
    write_items(inner.as_slice(), g.block.items.as_slice(), lines)?;
    write_groups(alloc, inner.as_slice(), g.block.groups.as_slice(), lines)?;
    write_data(inner.as_slice(), g.block.vars.as_slice(), lines)
}

// What stands before the names in a group.
fn names_begin(alloc: Global, before: &[u8], g: &GroupPlan) -> Result<Bytes, AllocError>
    ensures { IfOk result (λ inner. inner ≡ before_in before.now (head_of g.now)) }
{
    let mut inner = Bytes::from_slice(alloc, before)?;
    inner.extend_from_slice(g.name.as_slice())?;
    inner.push(b'.')?;
    Ok(inner)
}

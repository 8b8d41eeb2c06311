//! The lines of a message straight from its bytes, with no tree of its values. They are written in a room of their own and
//! added once the whole message is read: one with a fault adds none.

ghost use Rattle.std.specs.Prelude.{◌≡◌, [], ◌∷◌, ◌++◌, Err, OnOk, OnErr};
ghost use Rattle.sbe_prim.specs.declared.Order.{Order};
ghost use Rattle.sbe_layout.specs.Views.{head_of, plans_of};
ghost use Rattle.sbe_grammar.specs.declared.fault.DecodeFault.{DecodeFault};
ghost use Rattle.sbe_grammar.specs.Reading.{message_in, read_datum, read_if_in, read_data, read_group, read_groups, repeated};
ghost use Rattle.sbe_grammar.specs.Values.{items_in};
ghost use Rattle.sbe_decode.specs.declared.error.DecodeError.TheVariants.{Fault};
ghost use Rattle.sbe_decode.specs.Answers.{Gives};
ghost use Rattle.sbe_decode.specs.Walks.{read_parts};
ghost use Rattle.sbe_text.specs.Written.{datum_text, element_line, message_line, item_lines, lines_of_data, group_lines, entry_lines};
ghost use Rattle.sbe_text.specs.Wire.{HasAdded, HasNamed, lines_told, lines_of_group, lines_of_block, Prints};

use crate::path::{open_entry, open_group};
use crate::print::{write_count, write_item, write_name, write_path};
use crate::values::write_raw;
use sbe_decode::{
    DecodeError, Dimension, Reading, datum_bytes, is_in, layout_by, read_dimension, read_header,
    read_whole, value_in,
};
use sbe_layout::{BlockPlan, DataPlan, GroupPlan, ItemPlan, Listing, Plan};
use sbe_value::Block;
use std::alloc::{AllocError, Global};

/// How many bytes a draft has room for from its first message on, of what stands before names.
const NAMES: usize = 64;

/// The same of lines.
const LINES: usize = 1024;

/// Room for the lines of one message after another.
#[derive(Drop)]
pub struct Draft {
    // The lines of the message so far.
    lines: Vec<u8>,
    // What stands before the names in the block at hand.
    names: Vec<u8>,
}

impl Draft {
    /// No room yet.
    pub fn new(alloc: Global) -> Draft {
        Draft {
            lines: Vec::new(alloc),
            names: Vec::new(alloc),
        }
    }

    // Begins the lines of a message, and drops those of the one before it.
    fn begin(&mut self, name: &[u8]) -> Result<(), AllocError>
        ensures lines { OnOk result (self.new.lines.items ≡ message_line name.now) }
        ensures names { self.new.names.items ≡ [] }
    {
        self.names.clear();
        self.lines.clear();
        self.names.reserve(NAMES)?;
        self.lines.reserve(LINES)?;
        write_name(name, &mut self.lines)
    }
}

/// Adds the lines of the message that the bytes spell by the plan of its schema: those that `print_message` makes of it.
///
/// # Errors
/// The first fault of bytes that spell no message, and want of memory; no line is added then.
pub fn print_wire(
    alloc: Global,
    plan: &Plan,
    message: &[u8],
    draft: &mut Draft,
    lines: &mut Vec<u8>,
) -> Result<(), DecodeError>
    ensures lines { OnOk result (HasAdded plan.now message.now lines.old.items lines.new.items) }
    ensures fault { (f : DecodeFault) → result ≡ Err (Fault f) → message_in plan.now message.now ≡ Err f }
    ensures kept { OnErr result (lines.new.items ≡ lines.old.items) }
{
    add_message(alloc, &[], plan, message, draft, lines)
}

/// Adds these lines with names: ` NAME` behind the number of an enum, and behind that of a set one for each bit that is set.
///
/// # Errors
/// Those of [`print_wire`].
pub fn print_named_wire(
    alloc: Global,
    plan: &Plan,
    message: &[u8],
    draft: &mut Draft,
    lines: &mut Vec<u8>,
) -> Result<(), DecodeError>
    ensures lines { OnOk result (HasNamed plan.now.listings plan.now message.now lines.old.items lines.new.items) }
    ensures fault { (f : DecodeFault) → result ≡ Err (Fault f) → message_in plan.now message.now ≡ Err f }
    ensures kept { OnErr result (lines.new.items ≡ lines.old.items) }
{
    add_message(alloc, plan.listings.as_slice(), plan, message, draft, lines)
}

// Adds the lines of a message, with names by listings.
fn add_message(
    alloc: Global,
    listings: &[Listing],
    plan: &Plan,
    message: &[u8],
    draft: &mut Draft,
    lines: &mut Vec<u8>,
) -> Result<(), DecodeError>
    ensures lines { OnOk result (HasNamed listings.now plan.now message.now lines.old.items lines.new.items) }
    ensures fault { (f : DecodeFault) → result ≡ Err (Fault f) → message_in plan.now message.now ≡ Err f }
    ensures kept { OnErr result (lines.new.items ≡ lines.old.items) }
{
    print_message(alloc, listings, plan, message, draft)?;
    lines.extend_from_slice(draft.lines.as_slice())?;
    Ok(())
}

// Writes the lines of a message in the draft, with names by listings.
fn print_message(
    alloc: Global,
    listings: &[Listing],
    plan: &Plan,
    message: &[u8],
    draft: &mut Draft,
) -> Result<(), DecodeError>
    ensures { Gives (λ _. draft.new.lines.items) result (lines_told listings.now plan.now (message_in plan.now message.now)) }
{
    let (header, left) = read_header(plan.order, message)?;
    let layout = layout_by(plan, header)?;
    let reading = Reading {
        order: plan.order,
        version: header.version,
        total: message.len(),
    };
    draft.begin(layout.name.as_slice())?;
    let _rest = print_block(
        alloc,
        listings,
        reading,
        &layout.root,
        header.size as u64,
        left,
        draft,
    )?;
    draft.lines.extend_from_slice(b"end\n")?;
    Ok(())
}

// The lines of the elements of a block of this size, and the bytes behind it.
#[cycle(blocks)]
fn print_block<'a>(
    alloc: Global,
    listings: &[Listing],
    reading: Reading,
    plan: &BlockPlan,
    size: u64,
    left: &'a [u8],
    draft: &mut Draft,
) -> Result<&'a [u8], DecodeError>
    ensures lines { Prints (lines_of_block listings.now draft.old.names.items plan.now) (read_parts reading.order reading.version reading.total size plan.now left.now) draft.old.lines.items draft.new.lines.items result }
    ensures names { OnOk result (draft.new.names.items ≡ draft.old.names.items) }
{
    let (block, left) = read_whole(reading, size, plan.marks.as_slice(), left)?;
    print_items(
        listings,
        reading,
        block,
        plan.items.as_slice(),
        draft.names.as_slice(),
        &mut draft.lines,
    )?;
    let left = print_groups(
        alloc,
        listings,
        reading,
        plan.groups.as_slice(),
        left,
        draft,
    )?;
    print_data(
        reading,
        plan.vars.as_slice(),
        left,
        draft.names.as_slice(),
        &mut draft.lines,
    )
}

fn print_items(
    listings: &[Listing],
    reading: Reading,
    block: &[u8],
    plans: &[ItemPlan],
    before: &[u8],
    lines: &mut Vec<u8>,
) -> Result<(), AllocError>
    ensures { OnOk result (lines.new.items ≡ lines.old.items ++ item_lines listings.now before.now (items_in reading.order reading.version block.now plans.now) plans.now) }
{
    for plan in plans {
        write_item(
            listings,
            before,
            plan,
            value_in(reading, block, plan),
            lines,
        )?;
    }
    Ok(())
}

fn print_data<'a>(
    reading: Reading,
    plans: &[DataPlan],
    left: &'a [u8],
    before: &[u8],
    lines: &mut Vec<u8>,
) -> Result<&'a [u8], DecodeError>
    ensures { Prints (λ vars. lines_of_data before.now vars plans.now) (read_data reading.order reading.version reading.total plans.now left.now) lines.old.items lines.new.items result }
{
    let mut left = left;
    for plan in plans {
        left = print_datum(reading, plan, left, before, lines)?;
    }
    Ok(left)
}

fn print_datum<'a>(
    reading: Reading,
    plan: &DataPlan,
    left: &'a [u8],
    before: &[u8],
    lines: &mut Vec<u8>,
) -> Result<&'a [u8], DecodeError>
    ensures { Prints (λ datum. element_line before.now plan.now.name (datum_text datum)) (read_if_in reading.version plan.now (read_datum reading.order reading.total plan.now left.now) left.now) lines.old.items lines.new.items result }
{
    write_path(before, &plan.name, lines)?;
    if !is_in(reading.version, plan.since) {
        lines.extend_from_slice(b"absent\n")?;
        return Ok(left);
    }
    let (bytes, rest) = datum_bytes(reading, plan, left)?;
    write_raw(bytes, lines)?;
    lines.extend_from_slice(b"\n")?;
    Ok(rest)
}

// The lines of the groups of a block, and the bytes behind them.
#[cycle(blocks)]
fn print_groups<'a>(
    alloc: Global,
    listings: &[Listing],
    reading: Reading,
    plans: &[GroupPlan],
    left: &'a [u8],
    draft: &mut Draft,
) -> Result<&'a [u8], DecodeError>
    ensures lines { Prints (λ groups. group_lines listings.now draft.old.names.items groups (plans_of plans.now)) (read_groups reading.order reading.version reading.total (plans_of plans.now) left.now) draft.old.lines.items draft.new.lines.items result }
    ensures names { OnOk result (draft.new.names.items ≡ draft.old.names.items) }
{
    let mut left = left;
    for plan in plans {
        left = print_group(alloc, listings, reading, plan, left, draft)?;
    }
    Ok(left)
}

// The line of a group, and those of its entries.
#[cycle(blocks)]
fn print_group<'a>(
    alloc: Global,
    listings: &[Listing],
    reading: Reading,
    plan: &GroupPlan,
    left: &'a [u8],
    draft: &mut Draft,
) -> Result<&'a [u8], DecodeError>
    ensures lines { Prints (lines_of_group listings.now draft.old.names.items (head_of plan.now) plan.now.block.groups) (read_group reading.order reading.version reading.total (head_of plan.now) (read_groups reading.order reading.version reading.total plan.now.block.groups) left.now) draft.old.lines.items draft.new.lines.items result }
    ensures names { OnOk result (draft.new.names.items ≡ draft.old.names.items) }
{
    write_path(draft.names.as_slice(), &plan.name, &mut draft.lines)?;
    if !is_in(reading.version, plan.since) {
        draft.lines.extend_from_slice(b"absent\n")?;
        return Ok(left);
    }
    let (dimension, after) = read_dimension(reading, plan, left)?;
    write_count(dimension.count, &mut draft.lines)?;
    print_entries(alloc, listings, reading, plan, dimension, after, draft)
}

// The lines of the entries of a group, and the bytes behind them.
#[cycle(blocks)]
fn print_entries<'a>(
    alloc: Global,
    listings: &[Listing],
    reading: Reading,
    plan: &GroupPlan,
    dimension: Dimension,
    left: &'a [u8],
    draft: &mut Draft,
) -> Result<&'a [u8], DecodeError>
    ensures lines { Prints (λ blocks. entry_lines listings.now draft.old.names.items 0 blocks (head_of plan.now) plan.now.block.groups) (repeated dimension.count (read_parts reading.order reading.version reading.total dimension.size plan.now.block) left.now) draft.old.lines.items draft.new.lines.items result }
    ensures names { OnOk result (draft.new.names.items ≡ draft.old.names.items) }
{
    hold_entries(alloc, dimension)?;
    let begun = draft.names.len();
    open_group(&plan.name, &mut draft.names)?;
    let opened = draft.names.len();
    let mut left = left;
    for at in 0..dimension.count {
        open_entry(opened, at as u128, &mut draft.names)?;
        left = print_block(
            alloc,
            listings,
            reading,
            &plan.block,
            dimension.size,
            left,
            draft,
        )?;
    }
    draft.names.truncate(begun);
    Ok(left)
}

// Want of memory for many entries of no bytes is told at once, and not after a long run: no more of them are printed than
// memory could hold.
fn hold_entries(alloc: Global, dimension: Dimension) -> Result<(), AllocError> {
    if dimension.size == 0 {
        let _room: Vec<Block> = Vec::with_capacity(alloc, dimension.count as usize)?;
    }
    Ok(())
}

//! Reading a message from its lines. Each reader takes the text that is left,
//! and gives what its first lines tell and the text behind them.

ghost use Rattle.std.specs.Prelude.{◌≡◌, ◌+◌, ◌-◌, ◌<◌, [], length, IfOk, codes};
ghost use Rattle.std.specs.Option.{option_copied};
ghost use Rattle.sbe_value.specs.Views.{groups_of, blocks_of};
ghost use Rattle.sbe_layout.specs.Views.{head_of, plans_of};
ghost use Rattle.sbe_grammar.specs.Fits.{Fits};
ghost use Rattle.sbe_text.specs.Answers.{Gives, Tells, Numbers, entry_of};
ghost use Rattle.text_words.specs.Lines.{lines_in};
ghost use Rattle.sbe_text.specs.Read.{read_line, read_each};
ghost use Rattle.sbe_text.specs.Tokens.{value_on, is_line};
ghost use Rattle.sbe_text.specs.Reading.{read_item, read_datum, read_elements, read_entries, read_group, read_groups, named, layout_on, read_message, alone, message_of_text};

use crate::error::{Refusal, TextError};
use crate::path::{open_entry, open_group};
use crate::spare::Spare;
use crate::token::{Count, behind, datum, entry_count, value, value_on};
use sbe_layout::{BlockPlan, DataPlan, GroupPlan, ItemPlan, MessagePlan, MessagePlans, Plan};
use sbe_value::{Block, Blocks, Bytes, Datum, Datums, Group, Groups, Item, Items, Message};
use std::alloc::{AllocError, Global};
use text_words::{count_lines, first_line};

/// The message that a text spells by the plan of its schema (this project's profile): the lines that `print_message`
/// writes. Also taken are a carriage return before a line feed, hexadecimal digits of either case, raw bytes for an array
/// of characters, and a last line without its line feed. Whether a number lies in its range is not looked at.
///
/// # Errors
/// `Line` with the number of the first line that is not as it has to be, and `Memory`.
pub fn parse_message(alloc: Global, plan: &Plan, lines: &[u8]) -> Result<Message, TextError>
    // The message, or the number of the line, is the one that the definition tells.
    ensures told { Tells result (message_of_text plan.now lines.now) }
    ensures fits { IfOk result (Fits plan.now) }
{
    parse(alloc, plan, lines)
}

fn parse(alloc: Global, plan: &Plan, lines: &[u8]) -> Result<Message, TextError>
    ensures { Tells result (message_of_text plan.now lines.now) }
{
    let mut spare = Spare::new(alloc);
    match read_whole(alloc, &mut spare, plan, lines) {
        Ok(message) => Ok(message),
        Err(Refusal::At(left)) => Err(refused_line(lines, left)),
        Err(Refusal::Memory) => Err(TextError::Memory),
    }
}

/// The message at the front of a text, as [`parse_message`] reads it, and the text behind its line `end`. Messages in a row
/// are read one after another in this way.
///
/// # Errors
/// `At` with the text from the first line on that is not as it has to be, and `Memory`.
pub fn first_message<'a>(
    alloc: Global,
    plan: &Plan,
    text: &'a [u8],
) -> Result<(Message, &'a [u8]), Refusal<'a>>
    ensures told { Gives (λ x. (x.0, lines_in x.1.now)) result (read_message plan.now.messages (lines_in text.now)) }
    ensures shorter { IfOk result (λ x. length (lines_in x.1.now) < length (lines_in text.now)) }
{
    let mut spare = Spare::new(alloc);
    next_message(alloc, &mut spare, plan, text)
}

/// The same, with room of messages before it, which [`Spare::keep`] kept.
///
/// # Errors
/// As [`first_message`].
pub fn next_message<'a>(
    alloc: Global,
    spare: &mut Spare,
    plan: &Plan,
    text: &'a [u8],
) -> Result<(Message, &'a [u8]), Refusal<'a>>
    ensures told { Gives (λ x. (x.0, lines_in x.1.now)) result (read_message plan.now.messages (lines_in text.now)) }
    ensures shorter { IfOk result (λ x. length (lines_in x.1.now) < length (lines_in text.now)) }
{
    read_message(alloc, spare, plan, text)
}

/// The number of the line of a text, from 1, at which this is left of it.
// No memory holds a text whose lines cannot be numbered.
pub fn refused_line(lines: &[u8], left: &[u8]) -> TextError
    ensures { Numbers result (length (lines_in lines.now) - length (lines_in left.now) + 1) }
{
    match count_lines(lines)
        .saturating_sub(count_lines(left))
        .checked_add(1)
    {
        Some(number) => TextError::Line(number),
        None => TextError::Memory,
    }
}

// The message that a whole text spells.
fn read_whole<'a>(
    alloc: Global,
    spare: &mut Spare,
    plan: &Plan,
    text: &'a [u8],
) -> Result<Message, Refusal<'a>>
    ensures { Gives (λ m. m) result (alone (read_message plan.now.messages (lines_in text.now))) }
{
    let (message, rest) = read_message(alloc, spare, plan, text)?;
    match first_line(rest) {
        None => Ok(message),
        Some(_) => Err(Refusal::At(rest)),
    }
}

// The message at the front of a text.
fn read_message<'a>(
    alloc: Global,
    spare: &mut Spare,
    plan: &Plan,
    left: &'a [u8],
) -> Result<(Message, &'a [u8]), Refusal<'a>>
    ensures { Gives (λ x. (x.0, lines_in x.1.now)) result (read_message plan.now.messages (lines_in left.now)) }
{
    let (layout, rest) = read_layout(&plan.messages, left)?;
    let (root, rest) = read_block(alloc, spare, b"", &layout.root, rest)?;
    let rest = read_end(rest)?;
    Ok((
        Message {
            template: layout.template,
            root,
        },
        rest,
    ))
}

/// The layout that the line of a message names.
pub fn read_layout<'p, 'a>(
    messages: &'p MessagePlans,
    left: &'a [u8],
) -> Result<(&'p MessagePlan, &'a [u8]), Refusal<'a>>
    ensures { Gives (λ x. (x.0.now, lines_in x.1.now)) result (read_line (layout_on messages.now) (lines_in left.now)) }
{
    let Some((line, rest)) = first_line(left) else {
        return Err(Refusal::At(left));
    };
    match layout_on(messages, line) {
        Some(layout) => Ok((layout, rest)),
        None => Err(Refusal::At(left)),
    }
}

// The layout of the template that the line of a message names.
fn layout_on<'p>(messages: &'p MessagePlans, line: &[u8]) -> Option<&'p MessagePlan>
    ensures { option_copied result ≡ layout_on messages.now line.now }
{
    let name = behind(b"message ", line)?;
    let message = named(messages.as_slice(), name)?;
    messages.find(message.template)
}

// The first message of a name.
fn named<'p>(messages: &'p [MessagePlan], name: &[u8]) -> Option<&'p MessagePlan>
    ensures { option_copied result ≡ named messages.now name.now }
{
    for message in messages {
        if message.name.as_slice() == name {
            return Some(message);
        }
    }
    None
}

/// The line `end`.
pub fn read_end<'a>(left: &'a [u8]) -> Result<&'a [u8], Refusal<'a>>
    ensures { Gives (λ rest. (codes "end", lines_in rest.now)) result (read_line (is_line (codes "end")) (lines_in left.now)) }
{
    match first_line(left) {
        Some((line, rest)) if line == b"end".as_slice() => Ok(rest),
        _ => Err(Refusal::At(left)),
    }
}

/// The value on the line of an element.
pub fn element<'a>(
    before: &[u8],
    name: &Bytes,
    left: &'a [u8],
) -> Result<(&'a [u8], &'a [u8]), Refusal<'a>>
    ensures { Gives (λ x. (x.0.now, lines_in x.1.now)) result (read_line (value_on before.now name.now) (lines_in left.now)) }
{
    let Some((line, rest)) = first_line(left) else {
        return Err(Refusal::At(left));
    };
    match value_on(before, name.as_slice(), line) {
        Some(value) => Ok((value, rest)),
        None => Err(Refusal::At(left)),
    }
}

fn read_item<'a>(
    alloc: Global,
    before: &[u8],
    plan: &ItemPlan,
    left: &'a [u8],
) -> Result<(Item, &'a [u8]), Refusal<'a>>
    ensures { Gives (λ x. (x.0, lines_in x.1.now)) result (read_item before.now plan.now (lines_in left.now)) }
{
    let (text, rest) = element(before, &plan.name, left)?;
    match value(alloc, plan, text)? {
        Some(item) => Ok((item, rest)),
        None => Err(Refusal::At(left)),
    }
}

fn read_items<'a>(
    alloc: Global,
    spare: &mut Spare,
    before: &[u8],
    plans: &[ItemPlan],
    left: &'a [u8],
) -> Result<(Vec<Item>, &'a [u8]), Refusal<'a>>
    ensures { Gives (λ x. (x.0.items, lines_in x.1.now)) result (read_each (read_item before.now) plans.now (lines_in left.now)) }
{
    let mut items = spare.room(alloc, plans.len())?;
    let mut left = left;
    for plan in plans {
        let (item, rest) = read_item(alloc, before, plan, left)?;
        items.push(item)?;
        left = rest;
    }
    Ok((items, left))
}

fn read_datum<'a>(
    alloc: Global,
    before: &[u8],
    plan: &DataPlan,
    left: &'a [u8],
) -> Result<(Datum, &'a [u8]), Refusal<'a>>
    ensures { Gives (λ x. (x.0, lines_in x.1.now)) result (read_datum before.now plan.now (lines_in left.now)) }
{
    let (text, rest) = element(before, &plan.name, left)?;
    match datum(alloc, text)? {
        Some(datum) => Ok((datum, rest)),
        None => Err(Refusal::At(left)),
    }
}

fn read_data<'a>(
    alloc: Global,
    before: &[u8],
    plans: &[DataPlan],
    left: &'a [u8],
) -> Result<(Vec<Datum>, &'a [u8]), Refusal<'a>>
    ensures { Gives (λ x. (x.0.items, lines_in x.1.now)) result (read_each (read_datum before.now) plans.now (lines_in left.now)) }
{
    let mut data = Vec::with_capacity(alloc, plans.len())?;
    let mut left = left;
    for plan in plans {
        let (datum, rest) = read_datum(alloc, before, plan, left)?;
        data.push(datum)?;
        left = rest;
    }
    Ok((data, left))
}

// The elements of a block.
#[cycle(groups)]
fn read_block<'a>(
    alloc: Global,
    spare: &mut Spare,
    before: &[u8],
    plan: &BlockPlan,
    left: &'a [u8],
) -> Result<(Block, &'a [u8]), Refusal<'a>>
    ensures { Gives (λ x. (entry_of x.0, lines_in x.1.now)) result (read_elements before.now plan.now.items (read_groups before.now plan.now.groups) plan.now.vars (lines_in left.now)) }
{
    let (items, left) = read_items(alloc, spare, before, plan.items.as_slice(), left)?;
    let (groups, left) = read_groups(alloc, spare, before, plan.groups.as_slice(), left)?;
    let (vars, left) = read_data(alloc, before, plan.vars.as_slice(), left)?;
    Ok((
        Block {
            items: Items::from(items),
            groups: Groups::from(groups),
            vars: Datums::from(vars),
        },
        left,
    ))
}

#[cycle(groups)]
fn read_groups<'a>(
    alloc: Global,
    spare: &mut Spare,
    before: &[u8],
    plans: &[GroupPlan],
    left: &'a [u8],
) -> Result<(Vec<Group>, &'a [u8]), Refusal<'a>>
    ensures { Gives (λ x. (groups_of x.0.items, lines_in x.1.now)) result (read_groups before.now (plans_of plans.now) (lines_in left.now)) }
{
    let mut groups = Vec::with_capacity(alloc, plans.len())?;
    let mut left = left;
    for plan in plans {
        let (group, rest) = read_group(alloc, spare, before, plan, left)?;
        groups.push(group)?;
        left = rest;
    }
    Ok((groups, left))
}

// A group: its line, and its entries.
#[cycle(groups)]
fn read_group<'a>(
    alloc: Global,
    spare: &mut Spare,
    before: &[u8],
    plan: &GroupPlan,
    left: &'a [u8],
) -> Result<(Group, &'a [u8]), Refusal<'a>>
    ensures { Gives (λ x. (x.0, lines_in x.1.now)) result (read_group before.now (head_of plan.now) (λ path. read_groups path plan.now.block.groups) (lines_in left.now)) }
{
    let (text, rest) = element(before, &plan.name, left)?;
    match entry_count(text) {
        None => Err(Refusal::At(left)),
        Some(Count::Absent) => Ok((Group::Absent, rest)),
        Some(Count::Entries(count)) => {
            let (entries, rest) = read_entries(alloc, spare, before, plan, count, rest)?;
            Ok((Group::Entries(Blocks::from(entries)), rest))
        }
    }
}

// So many entries of a group.
#[cycle(groups)]
fn read_entries<'a>(
    alloc: Global,
    spare: &mut Spare,
    before: &[u8],
    plan: &GroupPlan,
    count: u128,
    left: &'a [u8],
) -> Result<(Vec<Block>, &'a [u8]), Refusal<'a>>
    ensures { Gives (λ x. (blocks_of x.0.items, lines_in x.1.now)) result (read_entries before.now (head_of plan.now) (λ path. read_groups path plan.now.block.groups) count (lines_in left.now)) }
{
    let mut entries = room_for(alloc, &plan.block, count)?;
    let mut inner = Vec::new(alloc);
    inner.extend_from_slice(before)?;
    open_group(&plan.name, &mut inner)?;
    let opened = inner.len();
    let mut left = left;
    for at in 0..count {
        open_entry(opened, at, &mut inner)?;
        let (entry, rest) = read_block(alloc, spare, inner.as_slice(), &plan.block, left)?;
        entries.push(entry)?;
        left = rest;
    }
    Ok((entries, left))
}

// Room for so many entries. Those that take no lines take it at once, so that want of memory is told before a long run;
// others take none before their lines are read.
fn room_for(alloc: Global, plan: &BlockPlan, count: u128) -> Result<Vec<Block>, AllocError>
    ensures { IfOk result (λ entries. entries.items ≡ []) }
{
    if has_elements(plan) {
        return Ok(Vec::new(alloc));
    }
    match usize::try_from(count) {
        Ok(count) => Vec::with_capacity(alloc, count),
        Err(_) => Err(AllocError),
    }
}

fn has_elements(plan: &BlockPlan) -> bool {
    !(plan.items.is_empty() && plan.groups.as_slice().is_empty() && plan.vars.is_empty())
}

//! The members of an object: the elements of a block.

ghost use Rattle.std.specs.Prelude.{◌≡◌, ◌∷◌, ◌++◌, [], OnOk};
ghost use Rattle.json.specs.Token as token;
ghost use Rattle.sbe_value.specs.Views.{groups_of};
ghost use Rattle.sbe_layout.specs.Views.{head_of, plans_of};
ghost use Rattle.sbe_grammar.specs.Fits.{Fits};
ghost use Rattle.sbe_json.specs.Fields.{datum_tokens, entry_tokens, group_tokens, item_tokens, text_of, tokens_of_data, tokens_of_items, tokens_of_message};

use crate::names::write_named;
use crate::values::{write_hex, write_key, write_text};
use json::Writer;
use sbe_layout::{BlockPlan, DataPlan, GroupPlan, ItemPlan, Listing, Plan};
use sbe_value::{Block, Blocks, Datum, Group, Item, Message};
use std::alloc::{AllocError, Global};

/// Writes two members, `message` with the message's name and `fields` with its elements. The message needs to fit the plan.
///
/// # Errors
/// Want of memory.
pub fn write_message(
    alloc: Global,
    writer: &mut Writer,
    plan: &Plan,
    message: &Message,
) -> Result<(), AllocError>
    requires fits { Fits plan.now message.now }
    ensures before { writer.new.before ≡ writer.old.before }
    ensures tokens { OnOk result (writer.new.tokens ≡ writer.old.tokens ++ tokens_of_message plan.now message.now) }
{
    let Some(layout) = plan.messages.find(message.template) else {
        unreachable!()
    };
    writer.key("message")?;
    write_text(alloc, writer, layout.name.as_slice())?;
    writer.key("fields")?;
    writer.begin_object()?;
    write_block(
        alloc,
        writer,
        plan.listings.as_slice(),
        &layout.root,
        &message.root,
    )?;
    writer.end_object()
}

// Writes the members of the elements of a block.
#[cycle(blocks)]
fn write_block(
    alloc: Global,
    writer: &mut Writer,
    listings: &[Listing],
    plan: &BlockPlan,
    block: &Block,
) -> Result<(), AllocError>
    ensures before { writer.new.before ≡ writer.old.before }
    ensures tokens { OnOk result (writer.new.tokens ≡ writer.old.tokens
        ++ tokens_of_items listings.now block.now.items plan.now.items
        ++ group_tokens listings.now block.now.groups plan.now.groups
        ++ tokens_of_data block.now.vars plan.now.vars) }
{
    write_items(
        alloc,
        writer,
        listings,
        plan.items.as_slice(),
        block.items.as_slice(),
    )?;
    write_groups(
        alloc,
        writer,
        listings,
        plan.groups.as_slice(),
        block.groups.as_slice(),
    )?;
    write_data(alloc, writer, plan.vars.as_slice(), block.vars.as_slice())
}

fn write_items(
    alloc: Global,
    writer: &mut Writer,
    listings: &[Listing],
    plans: &[ItemPlan],
    items: &[Item],
) -> Result<(), AllocError>
    ensures before { writer.new.before ≡ writer.old.before }
    ensures tokens { OnOk result (writer.new.tokens ≡ writer.old.tokens ++ tokens_of_items listings.now items.now plans.now) }
{
    let mut left = items;
    for plan in plans {
        let [item, others @ ..] = left else {
            return Ok(());
        };
        write_item(alloc, writer, listings, plan, item)?;
        left = others;
    }
    Ok(())
}

// Writes the member of an item.
fn write_item(
    alloc: Global,
    writer: &mut Writer,
    listings: &[Listing],
    plan: &ItemPlan,
    item: &Item,
) -> Result<(), AllocError>
    ensures before { writer.new.before ≡ writer.old.before }
    ensures tokens { OnOk result (writer.new.tokens ≡ writer.old.tokens ++ item_tokens listings.now plan.now item.now) }
{
    if let Item::Absent = item {
        return Ok(());
    }
    write_key(alloc, writer, plan.name.as_slice())?;
    match item {
        Item::Num(number) => write_named(alloc, writer, listings, plan.kind, *number),
        Item::Null | Item::Absent => writer.null(),
        Item::Text(text) => write_text(alloc, writer, text.as_slice()),
        Item::Raw(bytes) => write_hex(alloc, writer, bytes.as_slice()),
    }
}

fn write_data(
    alloc: Global,
    writer: &mut Writer,
    plans: &[DataPlan],
    vars: &[Datum],
) -> Result<(), AllocError>
    ensures before { writer.new.before ≡ writer.old.before }
    ensures tokens { OnOk result (writer.new.tokens ≡ writer.old.tokens ++ tokens_of_data vars.now plans.now) }
{
    let mut left = vars;
    for plan in plans {
        let [datum, others @ ..] = left else {
            return Ok(());
        };
        write_datum(alloc, writer, plan, datum)?;
        left = others;
    }
    Ok(())
}

// Writes the member of data.
fn write_datum(
    alloc: Global,
    writer: &mut Writer,
    plan: &DataPlan,
    datum: &Datum,
) -> Result<(), AllocError>
    ensures before { writer.new.before ≡ writer.old.before }
    ensures tokens { OnOk result (writer.new.tokens ≡ writer.old.tokens ++ datum_tokens plan.now datum.now) }
{
    let Datum::Present(bytes) = datum else {
        return Ok(());
    };
    write_key(alloc, writer, plan.name.as_slice())?;
    write_hex(alloc, writer, bytes.as_slice())
}

// Writes the members of groups.
#[cycle(blocks)]
fn write_groups(
    alloc: Global,
    writer: &mut Writer,
    listings: &[Listing],
    plans: &[GroupPlan],
    groups: &[Group],
) -> Result<(), AllocError>
    ensures before { writer.new.before ≡ writer.old.before }
    ensures tokens { OnOk result (writer.new.tokens ≡ writer.old.tokens ++ group_tokens listings.now (groups_of groups.now) (plans_of plans.now)) }
{
    let mut left = groups;
    for g in plans {
        let [group, others @ ..] = left else {
            return Ok(());
        };
        match group {
            Group::Absent => {}
            Group::Entries(blocks) => write_entries(alloc, writer, listings, g, blocks)?,
        }
        left = others;
    }
    Ok(())
}

// Writes the member of a group: an array with an object for each entry.
#[cycle(blocks)]
fn write_entries(
    alloc: Global,
    writer: &mut Writer,
    listings: &[Listing],
    g: &GroupPlan,
    blocks: &Blocks,
) -> Result<(), AllocError>
    ensures before { writer.new.before ≡ writer.old.before }
    ensures tokens { OnOk result (writer.new.tokens ≡ writer.old.tokens
        ++ token.key (text_of g.now.name) ∷ token.begin_array
        ∷ (entry_tokens listings.now blocks.now (head_of g.now) g.now.block.groups ++ token.end_array ∷ [])) }
{
    write_key(alloc, writer, g.name.as_slice())?;
    writer.begin_array()?;
    for block in blocks.as_slice() {
        writer.begin_object()?;
        write_block(alloc, writer, listings, &g.block, block)?;
        writer.end_object()?;
    }
    writer.end_array()
}

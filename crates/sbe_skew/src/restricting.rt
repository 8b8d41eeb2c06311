//! The restriction of a message to an older version of its schema: what a reader of that version sees of it.

ghost use Rattle.std.specs.Prelude.{◌≡◌, ◌++◌, IfOk, OnOk};
ghost use Rattle.sbe_value.specs.Views.{groups_of, blocks_of};
ghost use Rattle.sbe_layout.specs.Views.{plans_of};
ghost use Rattle.sbe_grammar.specs.Values.{is_in};
ghost use Rattle.sbe_skew.specs.Restricted.{restricted, kept_items, kept_data, kept_groups, kept_entries, kept_group, kept_block, list_of_groups, list_of_blocks};

use lists::Element;
use sbe_layout::{BlockPlan, DataPlan, GroupPlan, ItemPlan, Plan};
use sbe_value::{Block, Blocks, Datum, Datums, Group, Groups, Item, Items, Message};
use std::alloc::{AllocError, Global};

/// The message without the items, groups and data that came with a version above `version`, in the entries of its
/// groups at every depth. A message of a template that the plan lacks stays as it is.
pub fn restrict(
    alloc: Global,
    plan: &Plan,
    message: &Message,
    version: u16,
) -> Result<Message, AllocError>
    ensures exact { IfOk result (λ kept. kept ≡ restricted plan.now message.now version) }
{
    let root = match plan.messages.find(message.template) {
        None => message.root.copy(alloc)?,
        Some(layout) => keep_block(alloc, version, &layout.root, &message.root)?,
    };
    Ok(Message {
        template: message.template,
        root,
    })
}

/// Whether what came with the version `since` is in this version.
pub fn is_in(version: u16, since: i128) -> bool
    ensures { result ≡ is_in version since }
{
    since <= i128::from(version)
}

// What is kept of a block with its groups and its data.
#[cycle(blocks)]
#[tactic(auto, using(crate::proofs::Rows::groups_back))]
fn keep_block(
    alloc: Global,
    version: u16,
    plan: &BlockPlan,
    block: &Block,
) -> Result<Block, AllocError>
    ensures { IfOk result (λ kept. kept ≡ kept_block version plan.now block.now) }
{
    let mut items = Vec::new(alloc);
    keep_items(
        alloc,
        version,
        plan.items.as_slice(),
        block.items.as_slice(),
        &mut items,
    )?;
    let mut groups = Vec::new(alloc);
    keep_groups(
        alloc,
        version,
        plan.groups.as_slice(),
        block.groups.as_slice(),
        &mut groups,
    )?;
    let mut vars = Vec::new(alloc);
    keep_data(
        alloc,
        version,
        plan.vars.as_slice(),
        block.vars.as_slice(),
        &mut vars,
    )?;
    Ok(Block {
        items: Items::from(items),
        groups: Groups::from(groups),
        vars: Datums::from(vars),
    })
}

// Adds the groups that are kept.
#[cycle(blocks)]
fn keep_groups(
    alloc: Global,
    version: u16,
    plans: &[GroupPlan],
    groups: &[Group],
    kept: &mut Vec<Group>,
) -> Result<(), AllocError>
    ensures { OnOk result (kept.new.items ≡ kept.old.items ++ list_of_groups (kept_groups version (plans_of plans.now) (groups_of groups.now))) }
{
    match (plans, groups) {
        ([plan, plans @ ..], [group, groups @ ..]) => {
            if is_in(version, plan.since) {
                let group = keep_group(alloc, version, &plan.block, group)?;
                kept.push(group)?;
            }
            keep_groups(alloc, version, plans, groups, kept)
        }
        ([], _) => Ok(()),
        ([_plan, _plans @ ..], []) => Ok(()),
    }
}

// What is kept of a group.
#[cycle(blocks)]
#[tactic(auto, using(crate::proofs::Rows::blocks_back))]
fn keep_group(
    alloc: Global,
    version: u16,
    plan: &BlockPlan,
    group: &Group,
) -> Result<Group, AllocError>
    ensures { IfOk result (λ kept. kept ≡ kept_group version plan.now group.now) }
{
    match group {
        Group::Absent => Ok(Group::Absent),
        Group::Entries(entries) => {
            let kept = keep_entries(alloc, version, plan, entries.as_slice())?;
            Ok(Group::Entries(Blocks::from(kept)))
        }
    }
}

// What is kept of the entries of a group.
#[cycle(blocks)]
fn keep_entries(
    alloc: Global,
    version: u16,
    plan: &BlockPlan,
    entries: &[Block],
) -> Result<Vec<Block>, AllocError>
    ensures { IfOk result (λ kept. kept.items
        ≡ list_of_blocks (kept_entries version plan.now.items plan.now.groups plan.now.vars (blocks_of entries.now))) }
{
    let mut kept = Vec::with_capacity(alloc, entries.len())?;
    for entry in entries {
        kept.push(keep_block(alloc, version, plan, entry)?)?;
    }
    Ok(kept)
}

// Adds the items that are kept.
fn keep_items(
    alloc: Global,
    version: u16,
    plans: &[ItemPlan],
    items: &[Item],
    kept: &mut Vec<Item>,
) -> Result<(), AllocError>
    ensures { OnOk result (kept.new.items ≡ kept.old.items ++ kept_items version plans.now items.now) }
{
    match (plans, items) {
        ([plan, plans @ ..], [item, items @ ..]) => {
            if is_in(version, plan.since) {
                kept.push(item.copy(alloc)?)?;
            }
            keep_items(alloc, version, plans, items, kept)
        }
        ([], _) => Ok(()),
        ([_plan, _plans @ ..], []) => Ok(()),
    }
}

// Adds the data that are kept.
fn keep_data(
    alloc: Global,
    version: u16,
    plans: &[DataPlan],
    vars: &[Datum],
    kept: &mut Vec<Datum>,
) -> Result<(), AllocError>
    ensures { OnOk result (kept.new.items ≡ kept.old.items ++ kept_data version plans.now vars.now) }
{
    match (plans, vars) {
        ([plan, plans @ ..], [datum, vars @ ..]) => {
            if is_in(version, plan.since) {
                kept.push(datum.copy(alloc)?)?;
            }
            keep_data(alloc, version, plans, vars, kept)
        }
        ([], _) => Ok(()),
        ([_plan, _plans @ ..], []) => Ok(()),
    }
}

//! What the path of an element names in a message.

ghost use Rattle.std.specs.Prelude.{◌≡◌, ℕ, List, Option};
ghost use Rattle.std.specs.Option.{option_copied};
ghost use Rattle.sbe_layout.specs.Views.{plans_of};
ghost use Rattle.text_names.specs.Paths.{behind_place, block_meaning, element_named, groups_meaning, has_datum, kind_named, meaning_of};
ghost use Rattle.text_names.specs.Steps.{group_meaning};

use crate::bare::cut_at;
use sbe_layout::{BlockPlan, DataPlan, GroupPlan, ItemKind, ItemPlan, MessagePlan};

/// What a path names.
#[derive(Clone, Copy)]
pub(crate) enum Meaning {
    /// An item of this type.
    Item(ItemKind),
    /// A datum.
    Datum,
    /// A group, or nothing.
    Other,
}

// The type of the first item of a name.
fn kind_named(items: &[ItemPlan], name: &[u8]) -> Option<ItemKind>
    ensures { result ≡ kind_named items.now name.now }
{
    for item in items {
        if item.name.as_slice() == name {
            return Some(item.kind);
        }
    }
    None
}

// Whether some datum has a name.
fn has_datum(vars: &[DataPlan], name: &[u8]) -> bool
    ensures { result ≡ has_datum vars.now name.now }
{
    for datum in vars {
        if datum.name.as_slice() == name {
            return true;
        }
    }
    false
}

// An item or a datum of a block.
fn element_named(block: &BlockPlan, name: &[u8]) -> Meaning
    ensures { result ≡ element_named block.now.items block.now.vars name.now }
{
    match kind_named(block.items.as_slice(), name) {
        Some(kind) => Meaning::Item(kind),
        None if has_datum(block.vars.as_slice(), name) => Meaning::Datum,
        None => Meaning::Other,
    }
}

// The first group of a name.
fn group_named<'p>(groups: &'p [GroupPlan], name: &[u8]) -> Option<&'p GroupPlan>
    ensures { (after : List ℕ) → groups_meaning (plans_of groups.now) name.now after ≡ group_meaning after (option_copied result) }
{
    for group in groups {
        if group.name.as_slice() == name {
            return Some(group);
        }
    }
    None
}

// What stands behind the place of an entry.
fn behind_place(text: &[u8]) -> Option<&[u8]>
    ensures { option_copied result ≡ behind_place text.now }
{
    let (_, rest) = cut_at(b']', text)?;
    rest.strip_prefix(b".")
}

// An element of a block.
fn block_meaning(block: &BlockPlan, path: &[u8]) -> Meaning
    ensures { result ≡ block_meaning block.now path.now }
{
    let Some((name, after)) = cut_at(b'[', path) else {
        return element_named(block, path);
    };
    let Some(group) = group_named(block.groups.as_slice(), name) else {
        return Meaning::Other;
    };
    match behind_place(after) {
        Some(rest) => block_meaning(&group.block, rest),
        None => Meaning::Other,
    }
}

/// An element of a message, where one was named.
pub(crate) fn meaning_of(layout: Option<&MessagePlan>, path: &[u8]) -> Meaning
    ensures { result ≡ meaning_of (option_copied layout.entry) path.now }
{
    match layout {
        Some(layout) => block_meaning(&layout.root, path),
        None => Meaning::Other,
    }
}

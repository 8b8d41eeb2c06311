//! Whether a value has the form that its item has.

ghost use Rattle.std.specs.Prelude.{◌≡◌, true, not, ◌&&◌};
ghost use Rattle.sbe_value.specs.declared.item.Item.TheVariants.{Null};
ghost use Rattle.sbe_grammar.specs.Canonical.{is_absent};
ghost use Rattle.sbe_grammar.specs.Fits.{form_of, has_form, number, text, raw, is_optional};
ghost use Rattle.sbe_encode.specs.Faults.{is_shaped};

use sbe_layout::{ItemKind, ItemPlan};
use sbe_prim::{Primitive, is_integral};
use sbe_schema::Presence;
use sbe_value::Item;

/// Whether an item is there and of the form that its plan gives it.
pub fn is_shaped(plan: &ItemPlan, item: &Item) -> bool
    ensures { result ≡ is_shaped plan.now item.now }
{
    match plan.kind {
        ItemKind::Number { prim, length, .. } => {
            if length >= 2 {
                if matches!(prim, Primitive::Char) {
                    is_text(plan.size, item)
                } else {
                    is_raw(plan.size, item)
                }
            } else if is_integral(prim) {
                is_number(plan.presence, item)
            } else {
                is_raw(plan.size, item)
            }
        }
        ItemKind::Enum { .. } | ItemKind::Set { .. } => matches!(item, Item::Num(_)),
    }
}

/// Whether an item is a number.
pub fn holds_numbers(plan: &ItemPlan) -> bool
    ensures { result ≡ true → form_of plan.now ≡ number (has_form (form_of plan.now) Null) }
{
    match plan.kind {
        ItemKind::Number { prim, length, .. } => length < 2 && is_integral(prim),
        ItemKind::Enum { .. } | ItemKind::Set { .. } => true,
    }
}

// A number, or none where it is optional.
fn is_number(presence: Presence, item: &Item) -> bool
    ensures { result ≡ (not (is_absent item.now) && has_form (number (is_optional presence)) item.now) }
{
    match item {
        Item::Num(_) => true,
        Item::Null => matches!(presence, Presence::Optional),
        Item::Absent | Item::Text(_) | Item::Raw(_) => false,
    }
}

// A text of at most so many bytes.
fn is_text(size: u128, item: &Item) -> bool
    ensures { result ≡ (not (is_absent item.now) && has_form (text size) item.now) }
{
    match item {
        Item::Text(text) => text.len() as u128 <= size,
        Item::Num(_) | Item::Null | Item::Absent | Item::Raw(_) => false,
    }
}

// Exactly so many bytes.
fn is_raw(size: u128, item: &Item) -> bool
    ensures { result ≡ (not (is_absent item.now) && has_form (raw size) item.now) }
{
    match item {
        Item::Raw(bytes) => bytes.len() as u128 == size,
        Item::Num(_) | Item::Null | Item::Absent | Item::Text(_) => false,
    }
}

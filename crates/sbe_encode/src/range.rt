//! Whether a value lies in the range of its type.

ghost use Rattle.std.specs.Prelude.{◌≡◌, ◌^◌, ◌<◌, ◌≤◌, pos, slice_get};
ghost use Rattle.std.specs.List.{list_any, list_all};
ghost use Rattle.std.specs.Ordering.{int_eq};
ghost use Rattle.sbe_value.specs.declared.item.Item.TheVariants.{Num};
ghost use Rattle.sbe_grammar.specs.Canonical.{least_by, greatest_by, is_listed, without_bit, without_bits, names_all, may_have, in_range, is_written, is_ranged, is_admitted, prim_of, null_in};
ghost use Rattle.sbe_prim.specs.Primitives.{lies_within};

use crate::bytes::can_write;
use sbe_layout::{ItemKind, Listing};
use sbe_prim::{Primitive, default_greatest, default_least, null};
use sbe_schema::{BitDef, ValueDef};
use sbe_value::Item;

/// Whether the value of an item may be written, where it has the item's form.
pub fn is_admitted(listings: &[Listing], kind: ItemKind, item: &Item) -> bool
    ensures { result ≡ is_admitted listings.now kind item.now }
{
    is_written(kind, item) && is_ranged(listings, kind, item)
}

/// The same of a number.
pub fn admits_number(listings: &[Listing], kind: ItemKind, value: i128) -> bool
    ensures { result ≡ is_admitted listings.now kind (Num value) }
{
    can_write(prim_of(kind), value) && may_have(listings, kind, value)
}

// Whether the number of an item, or that for no value, can be written.
fn is_written(kind: ItemKind, item: &Item) -> bool
    ensures { result ≡ is_written kind item.now }
{
    match item {
        Item::Num(z) => can_write(prim_of(kind), *z),
        Item::Null => can_write(prim_of(kind), null_in(kind)),
        Item::Absent | Item::Text(_) | Item::Raw(_) => true,
    }
}

// Whether a value lies in the range of its type.
fn is_ranged(listings: &[Listing], kind: ItemKind, item: &Item) -> bool
    ensures { result ≡ is_ranged listings.now kind item.now }
{
    match item {
        Item::Num(z) => may_have(listings, kind, *z),
        Item::Text(text) => in_range(kind, text.as_slice()),
        Item::Null | Item::Absent | Item::Raw(_) => true,
    }
}

/// The primitive that an item's numbers are written as.
pub fn prim_of(kind: ItemKind) -> Primitive
    ensures { result ≡ prim_of kind }
{
    match kind {
        ItemKind::Number { prim, .. } | ItemKind::Enum { prim, .. } | ItemKind::Set { prim, .. } =>
            { prim }
    }
}

/// The number that stands for no value of an item.
pub fn null_in(kind: ItemKind) -> i128
    ensures { result ≡ null_in kind }
{
    match kind {
        ItemKind::Number {
            prim,
            null: stated,
            ..
        } => stated.unwrap_or(null(prim)),
        ItemKind::Enum { prim, .. } | ItemKind::Set { prim, .. } => null(prim),
    }
}

// Whether an item of this type may have a number.
fn may_have(listings: &[Listing], kind: ItemKind, value: i128) -> bool
    ensures { result ≡ may_have listings.now kind value }
{
    match kind {
        ItemKind::Number { prim, min, max, .. } => {
            least_by(prim, min) <= value && value <= greatest_by(prim, max)
        }
        ItemKind::Enum { at, .. } => is_listed(value, listings, at),
        ItemKind::Set { at, .. } => names_all(listings, at, value),
    }
}

// The least number that an item may have.
fn least_by(prim: Primitive, stated: Option<i128>) -> i128
    ensures { result ≡ least_by prim stated }
{
    stated.unwrap_or(default_least(prim))
}

// The greatest number that an item may have.
fn greatest_by(prim: Primitive, stated: Option<i128>) -> i128
    ensures { result ≡ greatest_by prim stated }
{
    stated.unwrap_or(default_greatest(prim))
}

// Whether the characters of a text lie in the range of their type.
fn in_range(kind: ItemKind, text: &[u8]) -> bool
    ensures { result ≡ in_range kind text.now }
{
    match kind {
        ItemKind::Number { prim, min, max, .. } => {
            all_within(least_by(prim, min), greatest_by(prim, max), text)
        }
        ItemKind::Enum { .. } | ItemKind::Set { .. } => true,
    }
}

fn all_within(least: i128, greatest: i128, text: &[u8]) -> bool
    ensures { result ≡ list_all (λ byte. lies_within least greatest (pos byte)) text.now }
{
    for byte in text {
        if (*byte as i128) < least || greatest < *byte as i128 {
            return false;
        }
    }
    true
}

// Whether an enum at a place among the types lists a number.
fn is_listed(value: i128, listings: &[Listing], at: u64) -> bool
    ensures { result ≡ is_listed value (slice_get listings.now at) }
{
    match listings.get(at as usize) {
        Some(Listing::Values(values)) => lists_value(value, values.as_slice()),
        Some(Listing::Nothing) | Some(Listing::Bits(_)) | None => false,
    }
}

fn lists_value(value: i128, values: &[ValueDef]) -> bool
    ensures { result ≡ list_any (λ v. int_eq v.value value) values.now }
{
    for v in values {
        if v.value == value {
            return true;
        }
    }
    false
}

// Whether a set at a place among the types names all bits of a number.
fn names_all(listings: &[Listing], at: u64, value: i128) -> bool
    ensures { result ≡ names_all (slice_get listings.now at) value }
{
    match listings.get(at as usize) {
        Some(Listing::Bits(bits)) => {
            value >= 0 && without_bits(bits.as_slice(), value as u128) == 0
        }
        Some(Listing::Nothing) | Some(Listing::Values(_)) | None => false,
    }
}

// What is left of a number when the named bits are taken out.
fn without_bits(bits: &[BitDef], value: u128) -> u128
    requires { value < 2 ^ 127 }
    ensures { result ≡ without_bits bits.now value }
{
    let mut left = value;
    for b in bits {
        left = without_bit(b.bit, left);
    }
    left
}

// What is left of a number when one bit is taken out.
#[tactic(auto, using(crate::proofs::Counts::without_high))]
fn without_bit(bit: u8, value: u128) -> u128
    requires { value < 2 ^ 127 }
    ensures left { result ≡ without_bit bit value }
    ensures less { result ≤ value }
{
    if bit >= 127 {
        return value;
    }
    let weight = 1u128 << bit;
    if value / weight % 2 == 1 {
        value - weight
    } else {
        value
    }
}

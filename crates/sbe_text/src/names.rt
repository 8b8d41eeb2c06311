//! What numbers of enums and sets are called in a schema.

ghost use Rattle.std.specs.Prelude.{◌≡◌, ◌/◌, ◌%◌, ◌^◌, ◌==◌, ◌++◌, slice_get, codes, OnOk};
ghost use Rattle.sbe_decode.specs.Shown.{item_of};
ghost use Rattle.sbe_text.specs.Named.{bit_names, item_names, names_in, names_of, set_names, value_name};

use sbe_decode::Value;
use sbe_layout::{ItemKind, Listing};
use sbe_schema::{BitDef, ValueDef};
use std::alloc::AllocError;

/// Writes what an item of this type is called, each name behind a blank. Without listings it writes nothing.
pub fn write_names(
    listings: &[Listing],
    kind: ItemKind,
    value: Value<'_>,
    lines: &mut Vec<u8>,
) -> Result<(), AllocError>
    ensures { OnOk result (lines.new.items ≡ lines.old.items ++ names_of listings.now kind (item_of value.entry)) }
{
    let [_first, _others @ ..] = listings else {
        return Ok(());
    };
    write_item_names(listings, kind, value, lines)
}

// Writes what an item is called.
fn write_item_names(
    listings: &[Listing],
    kind: ItemKind,
    value: Value<'_>,
    lines: &mut Vec<u8>,
) -> Result<(), AllocError>
    ensures { OnOk result (lines.new.items ≡ lines.old.items ++ item_names listings.now kind (item_of value.entry)) }
{
    let Value::Num(number) = value else {
        return Ok(());
    };
    match kind {
        ItemKind::Number { .. } => Ok(()),
        ItemKind::Enum { at, .. } | ItemKind::Set { at, .. } => {
            write_listed(listings, at, number, lines)
        }
    }
}

// Writes what a number is called by the type at a place.
fn write_listed(
    listings: &[Listing],
    at: u64,
    number: i128,
    lines: &mut Vec<u8>,
) -> Result<(), AllocError>
    ensures { OnOk result (lines.new.items ≡ lines.old.items ++ names_in (slice_get listings.now at) number) }
{
    match listings.get(at as usize) {
        Some(Listing::Values(values)) => write_value_name(number, values.as_slice(), lines),
        Some(Listing::Bits(bits)) => write_set(number, bits.as_slice(), lines),
        Some(Listing::Nothing) | None => Ok(()),
    }
}

// Writes a name behind a blank.
fn write_name(name: &[u8], lines: &mut Vec<u8>) -> Result<(), AllocError>
    ensures { OnOk result (lines.new.items ≡ lines.old.items ++ codes " " ++ name.now) }
{
    lines.push(b' ')?;
    lines.extend_from_slice(name)
}

// Writes the name of the first value that has a number.
fn write_value_name(
    number: i128,
    values: &[ValueDef],
    lines: &mut Vec<u8>,
) -> Result<(), AllocError>
    ensures { OnOk result (lines.new.items ≡ lines.old.items ++ value_name number values.now) }
{
    for v in values {
        if v.value == number {
            return write_name(v.name.as_slice(), lines);
        }
    }
    Ok(())
}

// Writes the names of the bits of a number that a set names.
fn write_set(number: i128, bits: &[BitDef], lines: &mut Vec<u8>) -> Result<(), AllocError>
    ensures { OnOk result (lines.new.items ≡ lines.old.items ++ set_names number bits.now) }
{
    if number < 0 {
        return Ok(());
    }
    write_bit_names(number as u128, bits, lines)
}

// Writes the names of the bits that are set.
fn write_bit_names(number: u128, bits: &[BitDef], lines: &mut Vec<u8>) -> Result<(), AllocError>
    ensures { OnOk result (lines.new.items ≡ lines.old.items ++ bit_names number bits.now) }
{
    for b in bits {
        if is_set(number, b.bit) {
            write_name(b.name.as_slice(), lines)?;
        }
    }
    Ok(())
}

// Whether a bit of a number is set.
#[tactic(auto, using(crate::proofs::Bits::high_unset))]
fn is_set(number: u128, bit: u8) -> bool
    ensures { result ≡ (number / 2 ^ bit % 2 == 1) }
{
    if bit >= 128 {
        return false;
    }
    (number >> bit) % 2 == 1
}

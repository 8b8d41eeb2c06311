//! Numbers that a schema lists, by their names.

ghost use Rattle.std.specs.Prelude.{◌≡◌, ◌/◌, ◌%◌, ◌^◌, ◌==◌, ◌∷◌, ◌++◌, [], slice_get, OnOk};
ghost use Rattle.json.specs.Token as token;
ghost use Rattle.sbe_json.specs.Fields.{bit_tokens, listed_tokens, number_tokens, set_object, set_tokens, value_token};

use crate::values::{write_number, write_text};
use json::Writer;
use sbe_layout::{ItemKind, Listing};
use sbe_prim::Primitive;
use sbe_schema::{BitDef, ValueDef};
use std::alloc::{AllocError, Global};

/// Writes a number of an item.
pub fn write_named(
    alloc: Global,
    writer: &mut Writer,
    listings: &[Listing],
    kind: ItemKind,
    number: i128,
) -> Result<(), AllocError>
    ensures before { writer.new.before ≡ writer.old.before }
    ensures tokens { OnOk result (writer.new.tokens ≡ writer.old.tokens ++ number_tokens listings.now kind number) }
{
    match kind {
        ItemKind::Number { prim, .. } => write_number(writer, prim, number),
        ItemKind::Enum { prim, at } | ItemKind::Set { prim, at } => {
            write_listed(alloc, writer, listings, prim, at, number)
        }
    }
}

// Writes a number as the type at a place lists it.
fn write_listed(
    alloc: Global,
    writer: &mut Writer,
    listings: &[Listing],
    prim: Primitive,
    at: u64,
    number: i128,
) -> Result<(), AllocError>
    ensures before { writer.new.before ≡ writer.old.before }
    ensures tokens { OnOk result (writer.new.tokens ≡ writer.old.tokens ++ listed_tokens prim number (slice_get listings.now at)) }
{
    match listings.get(at as usize) {
        Some(Listing::Values(values)) => {
            write_value(alloc, writer, prim, values.as_slice(), number)
        }
        Some(Listing::Bits(bits)) => write_set(alloc, writer, prim, bits.as_slice(), number),
        Some(Listing::Nothing) | None => write_number(writer, prim, number),
    }
}

// Writes the name of the first value that has a number, or the number.
fn write_value(
    alloc: Global,
    writer: &mut Writer,
    prim: Primitive,
    values: &[ValueDef],
    number: i128,
) -> Result<(), AllocError>
    ensures before { writer.new.before ≡ writer.old.before }
    ensures tokens { OnOk result (writer.new.tokens ≡ writer.old.tokens ++ value_token prim number values.now ∷ []) }
{
    for v in values {
        if v.value == number {
            return write_text(alloc, writer, v.name.as_slice());
        }
    }
    write_number(writer, prim, number)
}

// Writes a set.
fn write_set(
    alloc: Global,
    writer: &mut Writer,
    prim: Primitive,
    bits: &[BitDef],
    number: i128,
) -> Result<(), AllocError>
    ensures before { writer.new.before ≡ writer.old.before }
    ensures tokens { OnOk result (writer.new.tokens ≡ writer.old.tokens ++ set_object prim number bits.now) }
{
    writer.begin_object()?;
    writer.key("value")?;
    write_number(writer, prim, number)?;
    writer.key("names")?;
    writer.begin_array()?;
    write_names(alloc, writer, bits, number)?;
    writer.end_array()?;
    writer.end_object()
}

// Writes the names of the bits of a number that a set names.
fn write_names(
    alloc: Global,
    writer: &mut Writer,
    bits: &[BitDef],
    number: i128,
) -> Result<(), AllocError>
    ensures before { writer.new.before ≡ writer.old.before }
    ensures tokens { OnOk result (writer.new.tokens ≡ writer.old.tokens ++ set_tokens number bits.now) }
{
    if number < 0 {
        return Ok(());
    }
    write_bits(alloc, writer, bits, number as u128)
}

// Writes the names of the bits that are set.
fn write_bits(
    alloc: Global,
    writer: &mut Writer,
    bits: &[BitDef],
    number: u128,
) -> Result<(), AllocError>
    ensures before { writer.new.before ≡ writer.old.before }
    ensures tokens { OnOk result (writer.new.tokens ≡ writer.old.tokens ++ bit_tokens number bits.now) }
{
    for b in bits {
        if is_set(number, b.bit) {
            write_text(alloc, writer, b.name.as_slice())?;
        }
    }
    Ok(())
}

// Whether a bit of a number is set.
#[tactic(auto, using(sbe_text::proofs::Bits::high_unset))]
fn is_set(number: u128, bit: u8) -> bool
    ensures { result ≡ (number / 2 ^ bit % 2 == 1) }
{
    if bit >= 128 {
        return false;
    }
    (number >> bit) % 2 == 1
}

//! The strict text of a value that a person wrote.

ghost use Rattle.std.specs.Prelude.{◌≡◌, ◌++◌, ℕ, List, slice_get, decimal, OnOk};
ghost use Rattle.std.specs.Fmt.{signed_decimal};
ghost use Rattle.sbe_layout.specs.declared.items.ItemKind.TheVariants.{Enum};
ghost use Rattle.sbe_schema.specs.Kinds.{is_char};
ghost use Rattle.sbe_text.specs.Written.{are_plain, raw_text, value_text};
ghost use Rattle.sbe_value.specs.declared.item.Item.TheVariants.{Text};
ghost use Rattle.text_names.specs.Steps.{Tells, text_of};
ghost use Rattle.text_names.specs.Values.{array, character, datum, item_value, listed, listed_number, strict_value};

use crate::called::uncalled;
use crate::mistake::{Slip, Wrong};
use crate::names::{is_named, number_named, number_of_choices};
use crate::path::Meaning;
use crate::quotes::unquote;
use itoa::Buffer;
use sbe_layout::{ItemKind, Listing};
use sbe_prim::Primitive;
use std::alloc::{AllocError, Global};

/// A strict value.
#[derive(Clone, Copy)]
pub(crate) enum Strict<'a> {
    /// What was written.
    Same(&'a [u8]),
    /// A number.
    Number(i128),
    /// A number without a sign.
    Natural(u128),
    /// An array of characters, whose bytes stand in a room.
    Text,
    /// Raw bytes, which stand in a room.
    Raw,
}

// An array of characters.
fn array<'a>(text: &'a [u8], room: &mut Vec<u8>) -> Result<Strict<'a>, Slip<'a>>
    ensures { Tells (text_of room.new.items) result (array text.now) }
{
    match unquote(text, room) {
        Ok(true) => Ok(Strict::Text),
        Ok(false) => Ok(Strict::Same(text)),
        Err(slip) => Err(slip),
    }
}

// A datum.
fn datum<'a>(text: &'a [u8], room: &mut Vec<u8>) -> Result<Strict<'a>, Slip<'a>>
    ensures { Tells (text_of room.new.items) result (datum text.now) }
{
    match unquote(text, room) {
        Ok(true) => Ok(Strict::Raw),
        Ok(false) => Ok(Strict::Same(text)),
        Err(slip) => Err(slip),
    }
}

// The number of a character.
fn character<'a>(text: &'a [u8], room: &mut Vec<u8>) -> Result<Strict<'a>, Slip<'a>>
    ensures { Tells (text_of room.new.items) result (character text.now) }
{
    match unquote(text, room) {
        Ok(true) => match room.as_slice() {
            [byte] => Ok(Strict::Natural(u128::from(*byte))),
            _ => Err(Slip::Mistake(Wrong::Single, text)),
        },
        Ok(false) => Ok(Strict::Same(text)),
        Err(slip) => Err(slip),
    }
}

// The number of names, by what the type at a place lists.
fn listed<'a>(listings: &[Listing], at: u64, text: &'a [u8]) -> Result<Strict<'a>, Slip<'a>>
    ensures { (room : List ℕ) → Tells (text_of room) result (listed (slice_get listings.now at) text.now) }
{
    match listings.get(at as usize) {
        Some(Listing::Values(values)) => match number_named(values.as_slice(), text) {
            Ok(number) => Ok(Strict::Number(number)),
            Err(slip) => Err(slip),
        },
        Some(Listing::Bits(bits)) => match number_of_choices(bits.as_slice(), text) {
            Ok(number) => Ok(Strict::Natural(number)),
            Err(slip) => Err(slip),
        },
        Some(Listing::Nothing) | None => Ok(Strict::Same(text)),
    }
}

fn is_char(prim: Primitive) -> bool
    ensures { result ≡ is_char prim }
{
    match prim {
        Primitive::Char => true,
        Primitive::Int8
        | Primitive::Int16
        | Primitive::Int32
        | Primitive::Int64
        | Primitive::UInt8
        | Primitive::UInt16
        | Primitive::UInt32
        | Primitive::UInt64
        | Primitive::Float
        | Primitive::Double => false,
    }
}

// The number of a value of an enum.
fn enum_value<'a>(
    listings: &[Listing],
    prim: Primitive,
    at: u64,
    text: &'a [u8],
    room: &mut Vec<u8>,
) -> Result<Strict<'a>, Slip<'a>>
    ensures { Tells (text_of room.new.items) result (item_value listings.now (Enum prim at) text.now) }
{
    if is_named(text) {
        return listed(listings, at, text);
    }
    let number = uncalled(listings, at, text, room)?;
    if is_char(prim) {
        return character(number, room);
    }
    Ok(Strict::Same(number))
}

// The number of choices of a set.
fn set_value<'a>(
    listings: &[Listing],
    at: u64,
    text: &'a [u8],
    room: &mut Vec<u8>,
) -> Result<Strict<'a>, Slip<'a>>
    ensures { Tells (text_of room.new.items) result (listed_number (slice_get listings.now at) text.now) }
{
    if is_named(text) {
        return listed(listings, at, text);
    }
    Ok(Strict::Same(uncalled(listings, at, text, room)?))
}

// The value of an item of this type.
fn item_value<'a>(
    listings: &[Listing],
    kind: ItemKind,
    text: &'a [u8],
    room: &mut Vec<u8>,
) -> Result<Strict<'a>, Slip<'a>>
    ensures { Tells (text_of room.new.items) result (item_value listings.now kind text.now) }
{
    match kind {
        ItemKind::Number {
            prim: Primitive::Char,
            length,
            ..
        } if length >= 2 => array(text, room),
        ItemKind::Number {
            prim: Primitive::Char,
            ..
        } => character(text, room),
        ItemKind::Enum { prim, at } => enum_value(listings, prim, at, text, room),
        ItemKind::Set { at, .. } => set_value(listings, at, text, room),
        ItemKind::Number { .. } => Ok(Strict::Same(text)),
    }
}

/// The strict value by what its path names. Bytes are put into a room.
pub(crate) fn strict_value<'a>(
    listings: &[Listing],
    meaning: Meaning,
    text: &'a [u8],
    room: &mut Vec<u8>,
) -> Result<Strict<'a>, Slip<'a>>
    ensures { Tells (text_of room.new.items) result (strict_value listings.now meaning text.now) }
{
    match meaning {
        Meaning::Item(kind) => item_value(listings, kind, text, room),
        Meaning::Datum => datum(text, room),
        Meaning::Other => Ok(Strict::Same(text)),
    }
}

// Writes raw bytes.
fn write_raw(alloc: Global, bytes: &[u8], lines: &mut Vec<u8>) -> Result<(), AllocError>
    ensures { OnOk result (lines.new.items ≡ lines.old.items ++ raw_text bytes.now) }
{
    lines.push(b'x')?;
    lines.extend_from_slice(hex::encode(alloc, bytes)?.as_bytes())
}

// Whether all bytes may stand between the quotes of strict text.
fn are_plain(text: &[u8]) -> bool
    ensures { result ≡ are_plain text.now }
{
    for byte in text {
        let plain = (0x20..=0x7e).contains(byte) && *byte != b'"' && *byte != b'\\';
        if !plain {
            return false;
        }
    }
    true
}

// Writes an array of characters.
fn write_text(alloc: Global, text: &[u8], lines: &mut Vec<u8>) -> Result<(), AllocError>
    ensures { OnOk result (lines.new.items ≡ lines.old.items ++ value_text (Text text.now)) }
{
    if !are_plain(text) {
        return write_raw(alloc, text, lines);
    }
    lines.extend_from_slice(b"\"")?;
    lines.extend_from_slice(text)?;
    lines.extend_from_slice(b"\"")
}

/// Writes a strict value, whose bytes stand in a room.
pub(crate) fn write_strict(
    alloc: Global,
    value: Strict<'_>,
    room: &[u8],
    lines: &mut Vec<u8>,
) -> Result<(), AllocError>
    ensures { OnOk result (lines.new.items ≡ lines.old.items ++ text_of room.now value.entry) }
{
    match value {
        Strict::Same(text) => lines.extend_from_slice(text),
        Strict::Number(number) => {
            lines.extend_from_slice(Buffer::new().format(number).as_bytes())
        }
        Strict::Natural(number) => {
            lines.extend_from_slice(Buffer::new().format(number).as_bytes())
        }
        Strict::Text => write_text(alloc, room, lines),
        Strict::Raw => write_raw(alloc, room, lines),
    }
}

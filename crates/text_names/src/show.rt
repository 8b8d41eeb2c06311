//! Strict lines with the names of their values.

ghost use Rattle.std.specs.Prelude.{◌≡◌, ◌<◌, ◌++◌, ℕ, true, List, [], ◌∷◌, slice_get, OnOk, IfOk};
ghost use Rattle.std.specs.Fmt.{signed_decimal};
ghost use Rattle.std.specs.Str.{bytes_eq};
ghost use Rattle.std.specs.Option.{option_copied};
ghost use Rattle.sbe_text.specs.Tokens.{natural_of, raw_of};
ghost use Rattle.text_words.specs.Lines.{lines_in};
ghost use Rattle.text_names.specs.Lines.{without_element};
ghost use Rattle.text_names.specs.Named.{bits_in, choices_in, is_in, joined, named_by, named_choices, named_datum, named_by_line, named_lines, named_number, named_text, named_value, short};

use crate::bare::{bare_line, cut_at, trimmed};
use crate::names::{has_bit, has_meaning, with_bit};
use crate::narrow::{layout_from, space};
use crate::path::{Meaning, meaning_of};
use crate::quotes::{are_shown, write_in_quotes};
use hex::FromHexError;
use itoa::Buffer;
use sbe_layout::{ItemKind, Listing, MessagePlan, Plan};
use sbe_schema::{BitDef, ValueDef};
use std::alloc::{AllocError, Global};
use text_words::{first_line, number};

/// Whether a number is written so.
pub(crate) fn is_number(number: i128, text: &[u8]) -> bool
    ensures { result ≡ bytes_eq (signed_decimal number) text.now }
{
    Buffer::new().format(number).as_bytes() == text
}

// The name of the value of an enum that has this number, or else the number.
fn named_number<'a>(values: &'a [ValueDef], text: &'a [u8]) -> &'a [u8]
    ensures { result.now ≡ named_number values.now text.now }
{
    for v in values {
        let name = v.name.as_slice();
        if is_number(v.value, text) && !has_meaning(name) {
            return name;
        }
    }
    text
}

// Whether a choice is in a number, with a name that is no word with a meaning of its own.
fn is_in(number: u128, b: &BitDef) -> bool
    ensures is { result ≡ is_in number b.now }
    ensures low { result ≡ true → b.now.bit < 128 }
{
    has_bit(number, b.bit) && !has_meaning(b.name.as_slice())
}

// A number with the bits of the choices that are in another.
fn bits_in(bits: &[BitDef], number: u128) -> u128
    ensures { result ≡ bits_in bits.now number 0 }
{
    let mut so_far = 0u128;
    for b in bits {
        if is_in(number, b) {
            so_far = with_bit(so_far, b.bit);
        }
    }
    so_far
}

// Writes the names of the choices of a number, with bars between them.
fn write_choices(bits: &[BitDef], number: u128, lines: &mut Vec<u8>) -> Result<(), AllocError>
    ensures { OnOk result (lines.new.items ≡ lines.old.items ++ joined [] (choices_in bits.now number)) }
{
    let mut bar: &[u8] = b"";
    for b in bits {
        if is_in(number, b) {
            lines.extend_from_slice(bar)?;
            lines.extend_from_slice(b.name.as_slice())?;
            bar = b"|";
        }
    }
    Ok(())
}

// A number that 64 bits hold.
#[tactic(auto, using(crate::proofs::Numerals::short_of, crate::proofs::Numerals::short_none))]
fn short(text: &[u8]) -> Option<u64>
    ensures { result ≡ short (natural_of text.now) }
{
    number(text)
}

// Writes the choices of a number, where it has no other bits, or else the number.
fn write_set(bits: &[BitDef], text: &[u8], lines: &mut Vec<u8>) -> Result<(), AllocError>
    ensures { OnOk result (lines.new.items ≡ lines.old.items ++ named_choices bits.now text.now (short (natural_of text.now))) }
{
    match short(text) {
        Some(number) if number > 0 && bits_in(bits, u128::from(number)) == u128::from(number) => {
            write_choices(bits, u128::from(number), lines)
        }
        _ => lines.extend_from_slice(text),
    }
}

// Writes what a number is called by the type at a place, or else the number.
fn write_listed(
    listings: &[Listing],
    at: u64,
    text: &[u8],
    lines: &mut Vec<u8>,
) -> Result<(), AllocError>
    ensures { OnOk result (lines.new.items ≡ lines.old.items ++ named_by (slice_get listings.now at) text.now) }
{
    match listings.get(at as usize) {
        Some(Listing::Values(values)) => {
            lines.extend_from_slice(named_number(values.as_slice(), text))
        }
        Some(Listing::Bits(bits)) => write_set(bits.as_slice(), text, lines),
        Some(Listing::Nothing) | None => lines.extend_from_slice(text),
    }
}

// Writes a datum in quotes, where all its bytes may be shown so.
fn write_datum(alloc: Global, text: &[u8], lines: &mut Vec<u8>) -> Result<(), AllocError>
    ensures { OnOk result (lines.new.items ≡ lines.old.items ++ named_datum text.now (raw_of text.now)) }
{
    let Some(digits) = text.strip_prefix(b"x") else {
        return lines.extend_from_slice(text);
    };
    let bytes = match hex::decode(alloc, digits) {
        Ok(bytes) => bytes,
        Err(FromHexError::OutOfMemory) => return Err(AllocError),
        Err(_) => return lines.extend_from_slice(text),
    };
    let again = hex::encode(alloc, bytes.as_slice())?;
    if are_shown(bytes.as_slice()) && again.as_bytes() == digits {
        write_in_quotes(bytes.as_slice(), lines)
    } else {
        lines.extend_from_slice(text)
    }
}

// Writes a value with its names, by what its path names.
fn write_named(
    alloc: Global,
    listings: &[Listing],
    meaning: Meaning,
    text: &[u8],
    lines: &mut Vec<u8>,
) -> Result<(), AllocError>
    ensures { OnOk result (lines.new.items ≡ lines.old.items ++ named_value listings.now meaning text.now) }
{
    match meaning {
        Meaning::Item(ItemKind::Enum { at, .. }) | Meaning::Item(ItemKind::Set { at, .. }) => {
            write_listed(listings, at, text, lines)
        }
        Meaning::Datum => write_datum(alloc, text, lines),
        Meaning::Item(ItemKind::Number { .. }) | Meaning::Other => lines.extend_from_slice(text),
    }
}

// Writes a line with its names, and tells the message that was named last.
#[tactic(auto, using(crate::proofs::Narrowing::shown_element, crate::proofs::Narrowing::shown_other))]
fn write_line<'p>(
    alloc: Global,
    plan: &'p Plan,
    layout: Option<&'p MessagePlan>,
    line: &[u8],
    room: &mut Vec<u8>,
    lines: &mut Vec<u8>,
) -> Result<Option<&'p MessagePlan>, AllocError>
    ensures { IfOk result (λ next. (ls : List (List ℕ)) → lines.new.items ++ named_lines plan.now (option_copied next) ls ≡ lines.old.items ++ named_lines plan.now (option_copied layout.entry) (line.now ∷ ls)) }
{
    let line = bare_line(line);
    let Some((path, value)) = cut_at(b'=', line) else {
        return write_words(plan, layout, line, room, lines);
    };
    let path = trimmed(path);
    lines.extend_from_slice(path)?;
    lines.extend_from_slice(b" = ")?;
    let meaning = meaning_of(layout, path);
    write_named(
        alloc,
        plan.listings.as_slice(),
        meaning,
        trimmed(value),
        lines,
    )?;
    lines.push(b'\n')?;
    Ok(layout)
}

// Writes a line of words, if it has some.
#[tactic(auto, using(crate::proofs::Narrowing::shown_words))]
fn write_words<'p>(
    plan: &'p Plan,
    layout: Option<&'p MessagePlan>,
    line: &[u8],
    room: &mut Vec<u8>,
    lines: &mut Vec<u8>,
) -> Result<Option<&'p MessagePlan>, AllocError>
    ensures { IfOk result (λ next. (ls : List (List ℕ)) → lines.new.items ++ named_lines plan.now (option_copied next) ls
        ≡ lines.old.items ++ named_by_line plan.now (option_copied layout.entry) (without_element line.now) (λ following. named_lines plan.now following ls)) }
{
    if line.is_empty() {
        return Ok(layout);
    }
    space(line, room)?;
    lines.extend_from_slice(room.as_slice())?;
    lines.push(b'\n')?;
    Ok(layout_from(plan, layout, room.as_slice()))
}

/// Adds the lines of messages with names: those of values of enums, the choices of sets that have no other bits, and data in
/// quotes where all their bytes may be shown. [`narrow_message`](crate::narrow_message) makes strict lines of them again.
///
/// # Errors
/// Want of memory; then a part of the lines may have been added.
pub fn print_names(
    alloc: Global,
    plan: &Plan,
    strict: &[u8],
    lines: &mut Vec<u8>,
) -> Result<(), AllocError>
    ensures lines { OnOk result (lines.new.items ≡ lines.old.items ++ named_text plan.now (lines_in strict.now)) }
{
    let mut room = Vec::new(alloc);
    let mut layout: Option<&MessagePlan> = None;
    let mut left = strict;
    while let Some((line, rest)) = first_line(left) {
        layout = write_line(alloc, plan, layout, line, &mut room, lines)?;
        left = rest;
    }
    Ok(())
}

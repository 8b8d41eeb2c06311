//! Text in quotes.

ghost use Rattle.std.specs.Prelude.{◌≡◌, ◌<◌, ◌++◌, ℕ, List, [], ◌∷◌, Some, OnOk, IfOk, IfSome};
ghost use Rattle.hex.specs.Hex.{hex_digit_value};
ghost use Rattle.text_names.specs.Quotes.{are_shown, characters, escaped, high_digit, in_quotes, is_shown, low_digit, meant_by, shown};
ghost use Rattle.text_names.specs.Unquoting.{IsPlace, IsRead, Reads, goes_on, left_at};
ghost use Rattle.text_names.specs.Quoting.{Unquotes};

use crate::mistake::{Slip, Wrong};
use std::alloc::AllocError;

/// Where the next byte of a text in quotes stands.
#[derive(Clone, Copy)]
pub(crate) enum Place {
    /// Between the quotes.
    Text,
    /// Behind a backslash.
    Escape,
    /// Behind a backslash and an `x`.
    High,
    /// Behind these and a digit of this value.
    Low(u8),
    /// Behind the quote that ends the text.
    End,
}

/// What a byte is.
#[derive(Clone, Copy)]
pub(crate) enum Seen {
    /// With those before it, this byte of the text.
    Byte(u8),
    /// A part of one, and the next stands here.
    Part(Place),
    /// It may not stand here.
    Bad(Wrong),
}

// The value of a hexadecimal digit of either case.
fn digit_value(byte: u8) -> Option<u8>
    ensures value { result ≡ hex_digit_value byte }
    ensures below { IfSome result (λ v. v < 16) }
{
    match byte {
        b'0'..=b'9' => Some(byte - b'0'),
        b'a'..=b'f' => Some(byte - b'a' + 10),
        b'A'..=b'F' => Some(byte - b'A' + 10),
        _ => None,
    }
}

// The byte that one behind a backslash stands for.
fn meant_by(byte: u8) -> Option<u8>
    ensures { result ≡ meant_by byte }
{
    match byte {
        b'"' | b'\\' => Some(byte),
        b'n' => Some(b'\n'),
        b'r' => Some(b'\r'),
        b't' => Some(b'\t'),
        _ => None,
    }
}

fn read_text(byte: u8) -> Seen
    ensures next { (bs : List ℕ) → characters (byte ∷ bs) ≡ goes_on result bs }
    ensures place { IsRead result }
{
    match byte {
        b'"' => Seen::Part(Place::End),
        b'\\' => Seen::Part(Place::Escape),
        _ => Seen::Byte(byte),
    }
}

fn read_escape(byte: u8) -> Seen
    ensures next { (bs : List ℕ) → left_at Place.Escape (byte ∷ bs) ≡ goes_on result bs }
    ensures place { IsRead result }
{
    if byte == b'x' {
        return Seen::Part(Place::High);
    }
    match meant_by(byte) {
        Some(meant) => Seen::Byte(meant),
        None => Seen::Bad(Wrong::Escape),
    }
}

fn read_high(byte: u8) -> Seen
    ensures next { (bs : List ℕ) → high_digit (byte ∷ bs) ≡ goes_on result bs }
    ensures place { IsRead result }
{
    match digit_value(byte) {
        Some(high) => Seen::Part(Place::Low(high)),
        None => Seen::Bad(Wrong::Escape),
    }
}

fn read_low(high: u8, byte: u8) -> Seen
    requires { high < 16 }
    ensures next { (bs : List ℕ) → low_digit (Some high) (byte ∷ bs) ≡ goes_on result bs }
    ensures place { IsRead result }
{
    match digit_value(byte) {
        Some(low) => Seen::Byte(high * 16 + low),
        None => Seen::Bad(Wrong::Escape),
    }
}

// Reads a byte at a place.
fn read(place: Place, byte: u8) -> Seen
    requires { IsPlace place }
    ensures next { (bs : List ℕ) → left_at place (byte ∷ bs) ≡ goes_on result bs }
    ensures place { IsRead result }
{
    match place {
        Place::Text => read_text(byte),
        Place::Escape => read_escape(byte),
        Place::High => read_high(byte),
        Place::Low(high) => read_low(high, byte),
        Place::End => Seen::Bad(Wrong::Behind),
    }
}

// Puts the bytes of what stands behind a quote into a room, or says what is wrong with it.
#[tactic(auto, using(crate::proofs::Unquoting::led_none))]
fn characters(text: &[u8], room: &mut Vec<u8>) -> Result<Option<Wrong>, AllocError>
    ensures { IfOk result (Reads (characters text.now) room.new.items) }
{
    room.clear();
    let mut place = Place::Text;
    for byte in text {
        match read(place, *byte) {
            Seen::Byte(byte) => {
                room.push(byte)?;
                place = Place::Text;
            }
            Seen::Part(next) => place = next,
            Seen::Bad(wrong) => return Ok(Some(wrong)),
        }
    }
    match place {
        Place::End => Ok(None),
        Place::Text | Place::Escape | Place::High | Place::Low(_) => Ok(Some(Wrong::Open)),
    }
}

/// Whether a text begins with a quote. Its bytes are put into a room then.
pub(crate) fn unquote<'a>(text: &'a [u8], room: &mut Vec<u8>) -> Result<bool, Slip<'a>>
    ensures { Unquotes text.now room.new.items result }
{
    let [b'"', rest @ ..] = text else {
        return Ok(false);
    };
    match characters(rest, room) {
        Ok(None) => Ok(true),
        Ok(Some(wrong)) => Err(Slip::Mistake(wrong, text)),
        Err(_) => Err(Slip::Memory),
    }
}

// Whether a byte may be shown in quotes.
fn is_shown(byte: u8) -> bool
    ensures { result ≡ is_shown byte }
{
    (0x20..=0x7e).contains(&byte) || byte == b'\n' || byte == b'\r' || byte == b'\t'
}

/// Whether all bytes may be shown in quotes.
pub(crate) fn are_shown(text: &[u8]) -> bool
    ensures { result ≡ are_shown text.now }
{
    for byte in text {
        if !is_shown(*byte) {
            return false;
        }
    }
    true
}

// Writes a byte as it stands in quotes.
fn write_shown(byte: u8, lines: &mut Vec<u8>) -> Result<(), AllocError>
    ensures { OnOk result (lines.new.items ≡ lines.old.items ++ shown byte) }
{
    match byte {
        b'"' | b'\\' => lines.extend_from_slice(&[b'\\', byte]),
        b'\n' => lines.extend_from_slice(b"\\n"),
        b'\r' => lines.extend_from_slice(b"\\r"),
        b'\t' => lines.extend_from_slice(b"\\t"),
        _ => lines.extend_from_slice(&[byte]),
    }
}

/// Writes bytes in quotes.
pub(crate) fn write_in_quotes(bytes: &[u8], lines: &mut Vec<u8>) -> Result<(), AllocError>
    ensures { OnOk result (lines.new.items ≡ lines.old.items ++ in_quotes bytes.now) }
{
    lines.extend_from_slice(b"\"")?;
    for byte in bytes {
        write_shown(*byte, lines)?;
    }
    lines.extend_from_slice(b"\"")
}

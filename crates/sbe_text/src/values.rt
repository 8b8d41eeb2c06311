//! The texts of values: what stands behind the `=` of a line.

ghost use Rattle.std.specs.Prelude.{◌≡◌, ◌<◌, ◌≤◌, [], ◌∷◌, ◌++◌, OnOk, length, drop, slice_index, codes, decimal};
ghost use Rattle.std.specs.Fmt.{signed_decimal};
ghost use Rattle.hex.specs.Hex.{lower_digits, encode_lower};
ghost use Rattle.sbe_decode.specs.Shown.{item_of};
ghost use Rattle.sbe_text.specs.Written.{is_plain, are_plain, raw_text, value_text, datum_text};

use itoa::{Buffer, write_digits};
use sbe_decode::Value;
use sbe_value::{Datum, Item};
use std::alloc::AllocError;

const DIGITS: [u8; 16] = *b"0123456789abcdef";

/// The value of an item, its text or its bytes still in the item.
pub fn seen(item: &Item) -> Value<'_>
    ensures { item_of result ≡ item.now }
{
    match item {
        Item::Num(number) => Value::Num(*number),
        Item::Null => Value::Null,
        Item::Absent => Value::Absent,
        Item::Text(text) => Value::Text(text.as_slice()),
        Item::Raw(bytes) => Value::Raw(bytes.as_slice()),
    }
}

/// Writes the text of the value of an item.
pub fn write_value(value: Value<'_>, lines: &mut Vec<u8>) -> Result<(), AllocError>
    ensures { OnOk result (lines.new.items ≡ lines.old.items ++ value_text (item_of value.entry)) }
{
    match value {
        Value::Num(number) => write_number(number, lines),
        Value::Null => lines.extend_from_slice(b"null"),
        Value::Absent => lines.extend_from_slice(b"absent"),
        Value::Text(text) => write_text(text, lines),
        Value::Raw(bytes) => write_raw(bytes, lines),
    }
}

// Writes a number in decimal. Few are wider than 64 bits, and the digits of those that are not cost less.
fn write_number(number: i128, lines: &mut Vec<u8>) -> Result<(), AllocError>
    ensures { OnOk result (lines.new.items ≡ lines.old.items ++ signed_decimal number) }
{
    let mut digits = Buffer::new();
    match i64::try_from(number) {
        Ok(short) => lines.extend_from_slice(digits.format(short).as_bytes()),
        Err(_) => lines.extend_from_slice(digits.format(number).as_bytes()),
    }
}

/// Writes a number of 64 bits in decimal and what stands behind it, in one piece: that is what `room` has behind its first 20
/// bytes, which are for the digits.
#[tactic(auto, using(crate::proofs::Numerals::short_decimal))]
pub fn write_piece(number: u64, room: &mut [u8], lines: &mut Vec<u8>) -> Result<(), AllocError>
    requires { 20 ≤ length room.old }
    ensures { OnOk result (lines.new.items ≡ lines.old.items ++ decimal number ++ drop 20 room.old) }
{
    let at = write_digits(number, room, 20);
    let (_, piece) = room.split_at(at);
    lines.extend_from_slice(piece)
}

/// Writes a number in decimal, and ends its line.
pub fn write_number_line(number: i128, lines: &mut Vec<u8>) -> Result<(), AllocError>
    ensures { OnOk result (lines.new.items ≡ lines.old.items ++ signed_decimal number ++ 10 ∷ []) }
{
    match u64::try_from(number) {
        Ok(short) => {
            let mut room = *b"                    \n";
            write_piece(short, &mut room, lines)
        }
        Err(_) => {
            write_number(number, lines)?;
            lines.extend_from_slice(b"\n")
        }
    }
}

/// Writes a number without a sign in decimal.
pub fn write_natural(number: u128, lines: &mut Vec<u8>) -> Result<(), AllocError>
    ensures { OnOk result (lines.new.items ≡ lines.old.items ++ decimal number) }
{
    let mut digits = Buffer::new();
    match u64::try_from(number) {
        Ok(short) => lines.extend_from_slice(digits.format(short).as_bytes()),
        Err(_) => lines.extend_from_slice(digits.format(number).as_bytes()),
    }
}

/// Writes the text of a datum.
pub fn write_datum(datum: &Datum, lines: &mut Vec<u8>) -> Result<(), AllocError>
    ensures { OnOk result (lines.new.items ≡ lines.old.items ++ datum_text datum.now) }
{
    match datum {
        Datum::Absent => lines.extend_from_slice(b"absent"),
        Datum::Present(bytes) => write_raw(bytes.as_slice(), lines),
    }
}

// Writes an array of characters between quotes, or as raw bytes where some may not stand there.
fn write_text(text: &[u8], lines: &mut Vec<u8>) -> Result<(), AllocError>
    ensures { OnOk result (lines.new.items ≡ lines.old.items ++ value_text (Item.Text text.now)) }
{
    if !are_plain(text) {
        return write_raw(text, lines);
    }
    lines.push(b'"')?;
    lines.extend_from_slice(text)?;
    lines.extend_from_slice(b"\"")
}

/// Whether all bytes may stand between quotes.
pub fn are_plain(text: &[u8]) -> bool
    ensures { result ≡ are_plain text.now }
{
    for byte in text {
        if !is_plain(*byte) {
            return false;
        }
    }
    true
}

// Whether a byte may stand between quotes.
fn is_plain(byte: u8) -> bool
    ensures { result ≡ is_plain byte }
{
    (0x20..=0x7e).contains(&byte) && byte != b'"' && byte != b'\\'
}

/// Writes bytes in lower-case hexadecimal behind an `x`.
#[tactic(auto, unfolding(hex::specs::Hex::encode_with))]
pub fn write_raw(bytes: &[u8], lines: &mut Vec<u8>) -> Result<(), AllocError>
    ensures { OnOk result (lines.new.items ≡ lines.old.items ++ raw_text bytes.now) }
{
    lines.push(b'x')?;
    for byte in bytes {
        let pair = [
            DIGITS[usize::from(*byte / 16)],
            DIGITS[usize::from(*byte % 16)],
        ];
        lines.extend_from_slice(&pair)?;
    }
    Ok(())
}

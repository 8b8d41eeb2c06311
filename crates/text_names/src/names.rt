//! The numbers of names: of the values of enums and the choices of sets.

ghost use Rattle.std.specs.Prelude.{◌≡◌, true, ◌/◌, ◌^◌, ◌<◌, bit_or, IfSome};
ghost use Rattle.std.specs.Fmt.{signed_decimal};
ghost use Rattle.text_names.specs.Values.{begins_name, bit_named, has_bit, has_meaning, is_named, number_named, parts_at, with_bit, with_choices};
ghost use Rattle.text_names.specs.Steps.{Tells};
ghost use Rattle.text_names.specs.Bare.{trimmed};

use crate::bare::{cut_at, trimmed};
use crate::mistake::{Slip, Wrong};
use sbe_schema::{BitDef, ValueDef};

// Whether a byte is a letter or `_`.
fn begins_name(byte: u8) -> bool
    ensures { result ≡ begins_name byte }
{
    byte.is_ascii_uppercase() || byte.is_ascii_lowercase() || byte == b'_'
}

/// Whether a text is a word with a meaning of its own.
pub(crate) fn has_meaning(text: &[u8]) -> bool
    ensures { result ≡ has_meaning text.now }
{
    text == b"null".as_slice() || text == b"absent".as_slice()
}

/// Whether a value begins as a name, and is no word with a meaning of its own.
pub(crate) fn is_named(text: &[u8]) -> bool
    ensures { result ≡ is_named text.now }
{
    match text.first() {
        Some(first) => begins_name(*first) && !has_meaning(text),
        None => false,
    }
}

/// The number of the value of an enum that has the name.
pub(crate) fn number_named<'a>(values: &[ValueDef], name: &'a [u8]) -> Result<i128, Slip<'a>>
    ensures { Tells signed_decimal result (number_named values.now name.now) }
{
    for v in values {
        if v.name.as_slice() == name {
            return Ok(v.value);
        }
    }
    Err(Slip::Mistake(Wrong::Value, name))
}

// The place of the choice of a set that has the name.
fn bit_named(bits: &[BitDef], name: &[u8]) -> Option<u8>
    ensures found { result ≡ bit_named bits.now name.now }
    ensures below { IfSome result (λ bit. bit < 128) }
{
    for b in bits {
        if b.name.as_slice() == name {
            return if b.bit < 128 { Some(b.bit) } else { None };
        }
    }
    None
}

/// Whether a bit of a number is set.
#[tactic(auto, using(crate::proofs::Bits::high_unset))]
pub(crate) fn has_bit(number: u128, bit: u8) -> bool
    ensures is { result ≡ has_bit number bit }
    ensures low { result ≡ true → bit < 128 }
{
    if bit >= 128 {
        return false;
    }
    (number >> bit) % 2 == 1
}

/// A number with a bit more.
pub(crate) fn with_bit(number: u128, bit: u8) -> u128
    requires { bit < 128 }
    ensures { result ≡ bit_or number (2 ^ bit) }
{
    number | (1u128 << bit)
}

// A number with the bit of a choice.
fn with_choice<'a>(bits: &[BitDef], number: u128, word: &'a [u8]) -> Result<u128, Slip<'a>>
    ensures { Tells (λ n. n) result (with_bit number word.now (bit_named bits.now word.now)) }
{
    let Some(bit) = bit_named(bits, word) else {
        return Err(Slip::Mistake(Wrong::Choice, word));
    };
    if has_bit(number, bit) {
        return Err(Slip::Mistake(Wrong::Twice, word));
    }
    Ok(with_bit(number, bit))
}

/// The number of the choices of a set that stand between bars.
#[tactic(auto, using(crate::proofs::Choosing::last_choice))]
pub(crate) fn number_of_choices<'a>(bits: &[BitDef], text: &'a [u8]) -> Result<u128, Slip<'a>>
    ensures { Tells (λ n. n) result (with_choices bits.now (parts_at 124 text.now) 0) }
{
    let mut number = 0u128;
    let mut left = text;
    while let Some((word, rest)) = cut_at(b'|', left) {
        match with_choice(bits, number, trimmed(word)) {
            Ok(more) => number = more,
            Err(slip) => return Err(slip),
        }
        left = rest;
    }
    with_choice(bits, number, trimmed(left))
}

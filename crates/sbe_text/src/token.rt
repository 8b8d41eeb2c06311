//! What stands on a line: the path of an element, and its value.

ghost use Rattle.std.specs.Prelude.{◌≡◌, true, IfOk, IfSome, ◌^◌, ◌-◌, ◌&&◌, nat_le, if◌then◌else◌, codes};
ghost use Rattle.std.specs.Str.{bytes_eq};
ghost use Rattle.sbe_prim.specs.Primitives.{is_integer};
ghost use Rattle.sbe_schema.specs.Kinds.{is_char};
ghost use Rattle.std.specs.Option.{option_copied};
ghost use Rattle.std.specs.Str.Parse.{digits_value};
ghost use Rattle.sbe_grammar.specs.Fits.{form_of, is_optional, number, raw, text as text_form};
ghost use Rattle.sbe_text.specs.Tokens.{AreInFront, behind, in_front, value_on, are_digits, held, natural_of, positive, negative, number_of, raw_of, quoted_of, characters_of, present_of, value_of, datum_of, count_of};

use crate::values::are_plain;
use hex::FromHexError;
use sbe_layout::{ItemKind, ItemPlan};
use sbe_prim::{Primitive, is_integral};
use sbe_schema::Presence;
use sbe_value::{Bytes, Datum, Item};
use std::alloc::{AllocError, Global};

/// What stands behind these bytes.
pub fn behind<'a>(front: &[u8], bytes: &'a [u8]) -> Option<&'a [u8]>
    ensures { option_copied result ≡ behind front.now bytes.now }
{
    bytes.strip_prefix(front)
}

/// The value on the line of an element.
pub fn value_on<'a>(before: &[u8], name: &[u8], line: &'a [u8]) -> Option<&'a [u8]>
    ensures { option_copied result ≡ value_on before.now name.now line.now }
{
    let own = behind(before, line)?;
    let rest = behind(name, own)?;
    behind(b" = ", rest)
}

// Whether an element is absent.
fn is_absent(text: &[u8]) -> bool
    ensures { result ≡ bytes_eq text.now (codes "absent") }
{
    text == b"absent".as_slice()
}

/// The value of an item; none where the text is no value of the item's form.
pub fn value(alloc: Global, plan: &ItemPlan, text: &[u8]) -> Result<Option<Item>, AllocError>
    ensures { IfOk result (λ v. v ≡ value_of (form_of plan.now) text.now) }
{
    if is_absent(text) {
        return Ok(Some(Item::Absent));
    }
    match plan.kind {
        ItemKind::Number { prim, length, .. } if length >= 2 => array(alloc, plan, prim, text),
        ItemKind::Number { prim, .. } => single(alloc, plan, prim, text),
        ItemKind::Enum { .. } | ItemKind::Set { .. } => Ok(number(text).map(Item::Num)),
    }
}

// The value of a number or of a float or a double, which is carried as its bytes.
fn single(
    alloc: Global,
    plan: &ItemPlan,
    prim: Primitive,
    text: &[u8],
) -> Result<Option<Item>, AllocError>
    ensures { IfOk result (λ v. v ≡ present_of (if is_integer prim then number (is_optional plan.now.presence) else raw plan.now.size) text.now) }
{
    if !is_integral(prim) {
        return sized(alloc, plan.size, text);
    }
    match plan.presence {
        Presence::Optional if text == b"null".as_slice() => Ok(Some(Item::Null)),
        Presence::Required | Presence::Optional | Presence::Constant => {
            Ok(number(text).map(Item::Num))
        }
    }
}

// The value of an array.
fn array(
    alloc: Global,
    plan: &ItemPlan,
    prim: Primitive,
    text: &[u8],
) -> Result<Option<Item>, AllocError>
    ensures { IfOk result (λ v. v ≡ present_of (if is_char prim then text_form plan.now.size else raw plan.now.size) text.now) }
{
    match prim {
        Primitive::Char => characters(alloc, plan.size, text),
        _ => sized(alloc, plan.size, text),
    }
}

// Characters between quotes, or raw bytes; at most so many.
fn characters(alloc: Global, most: u128, text: &[u8]) -> Result<Option<Item>, AllocError>
    ensures { IfOk result (λ v. v ≡ present_of (text_form most) text.now) }
{
    let bytes = match quoted(text) {
        Some(plain) => Some(Bytes::from_slice(alloc, plain)?),
        None => raw(alloc, text)?,
    };
    match bytes {
        Some(bytes) if bytes.len() as u128 <= most => Ok(Some(Item::Text(bytes))),
        _ => Ok(None),
    }
}

// Characters between quotes.
fn quoted(text: &[u8]) -> Option<&[u8]>
    ensures { option_copied result ≡ quoted_of text.now }
{
    let rest = behind(b"\"", text)?;
    let inner = in_front(b"\"", rest)?;
    if are_plain(inner) { Some(inner) } else { None }
}

// What stands in front of these bytes.
fn in_front<'a>(back: &[u8], bytes: &'a [u8]) -> Option<&'a [u8]>
    ensures { option_copied result ≡ in_front back.now bytes.now }
{
    bytes.strip_suffix(back)
}

// Raw bytes, exactly so many.
fn sized(alloc: Global, size: u128, text: &[u8]) -> Result<Option<Item>, AllocError>
    ensures { IfOk result (λ v. v ≡ present_of (raw size) text.now) }
{
    match raw(alloc, text)? {
        Some(bytes) if bytes.len() as u128 == size => Ok(Some(Item::Raw(bytes))),
        _ => Ok(None),
    }
}

// Bytes as hexadecimal pairs of either case behind an `x`.
fn raw(alloc: Global, text: &[u8]) -> Result<Option<Bytes>, AllocError>
    ensures { IfOk result (λ v. v ≡ raw_of text.now) }
{
    let Some(digits) = behind(b"x", text) else {
        return Ok(None);
    };
    match hex::decode(alloc, digits) {
        Ok(bytes) => Ok(Some(Bytes::from(bytes))),
        Err(FromHexError::OutOfMemory) => Err(AllocError),
        Err(_) => Ok(None),
    }
}

/// The value of a datum; none where the text is none.
pub fn datum(alloc: Global, text: &[u8]) -> Result<Option<Datum>, AllocError>
    ensures { IfOk result (λ v. v ≡ datum_of text.now) }
{
    if is_absent(text) {
        return Ok(Some(Datum::Absent));
    }
    Ok(raw(alloc, text)?.map(Datum::Present))
}

/// What the line of a group tells.
#[derive(Clone, Copy)]
pub enum Count {
    /// The group is absent.
    Absent,
    /// It has so many entries.
    Entries(u128),
}

/// What the line of a group tells; none where the text is no count.
pub fn entry_count(text: &[u8]) -> Option<Count>
    ensures { result ≡ count_of text.now }
{
    if is_absent(text) {
        return Some(Count::Absent);
    }
    Some(Count::Entries(held(natural(text)?)?))
}

// A number with a `-` where it is negative.
fn number(text: &[u8]) -> Option<i128>
    ensures { result ≡ number_of text.now }
{
    match text {
        [b'-', digits @ ..] => negative(natural(digits)?),
        _ => positive(natural(text)?),
    }
}

// A number that 128 bits with a sign hold.
fn held(magnitude: u128) -> Option<u128>
    ensures { result ≡ held magnitude }
{
    if magnitude <= i128::MAX as u128 {
        Some(magnitude)
    } else {
        None
    }
}

fn positive(magnitude: u128) -> Option<i128>
    ensures { result ≡ positive magnitude }
{
    Some(held(magnitude)? as i128)
}

fn negative(magnitude: u128) -> Option<i128>
    ensures { result ≡ negative magnitude }
{
    if magnitude == 0 {
        return None;
    }
    let before = held(magnitude - 1)?;
    Some(-1 - before as i128)
}

// Decimal digits without a leading zero, of a number that 128 bits hold.
fn natural(text: &[u8]) -> Option<u128>
    ensures { result ≡ natural_of text.now }
{
    let first = *text.first()?;
    if first == b'0' && text.len() > 1 {
        return None;
    }
    digits_value(text)
}

// The number of decimal digits, where 128 bits hold it; none where a byte is no digit. Most are held by 64 bits: their digits
// are looked at once, and cost a part of the others'.
#[tactic(auto, using(crate::proofs::Numerals::all_in_front, crate::proofs::Numerals::some_in_front))]
fn digits_value(text: &[u8]) -> Option<u128>
    ensures { result ≡ (if are_digits text.now && nat_le (digits_value 10 text.now) (2 ^ 128 - 1) then Some (digits_value 10 text.now) else None) }
{
    match leading_digits(text) {
        Some((number, count)) if count == text.len() => Some(u128::from(number)),
        Some(_) => None,
        None if are_digits(text) => long_value(text),
        None => None,
    }
}

/// The number of the decimal digits at the front of a text, and how many they are; none where 64 bits do not hold it.
#[tactic(auto, using(crate::proofs::Numerals::more_digits, crate::proofs::Numerals::more_value, crate::proofs::Numerals::no_digits))]
pub fn leading_digits(text: &[u8]) -> Option<(u64, usize)>
    ensures { IfSome result (λ x. AreInFront text.now x.0 x.1) }
{
    let mut number = 0u64;
    for (at, byte) in text.iter().enumerate() {
        if !byte.is_ascii_digit() {
            return Some((number, at));
        }
        let value = u64::from(byte.saturating_sub(b'0'));
        number = number.checked_mul(10)?.checked_add(value)?;
    }
    Some((number, text.len()))
}

fn are_digits(text: &[u8]) -> bool
    ensures { result ≡ are_digits text.now }
{
    for byte in text {
        if !byte.is_ascii_digit() {
            return false;
        }
    }
    true
}

// The number of decimal digits, where 128 bits hold it.
#[tactic(auto, using(crate::proofs::Numerals::digits_grow, crate::proofs::Numerals::digits_next, crate::proofs::Numerals::digits_left))]
fn long_value(digits: &[u8]) -> Option<u128>
    requires { are_digits digits.now ≡ true }
    ensures { result ≡ (if nat_le (digits_value 10 digits.now) (2 ^ 128 - 1) then Some (digits_value 10 digits.now) else None) }
{
    let mut number = 0u128;
    for digit in digits {
        let value = u128::from(digit.saturating_sub(b'0'));
        number = number.checked_mul(10)?.checked_add(value)?;
    }
    Some(number)
}

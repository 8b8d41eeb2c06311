//! What stands at a key by itself: names, texts and numbers.

ghost use Rattle.std.specs.Prelude.{◌-◌, min, option_map, ◌≡◌, ◌≤◌, ◌+◌, ◌*◌, ◌<◌, ◌^◌, ℕ, IfOk, IfSome, Some, option_copied, length};
ghost use Rattle.toml.specs.Data.{as_str};
ghost use Rattle.toml.specs.View.{view};
ghost use Rattle.toml_walk.specs.Reading.{Reads};
ghost use Rattle.toml_walk.specs.Values.{are_digits, are_name_bytes, between, is_name, is_name_byte, name_of, natural_of, number_of, held, text_of, wide_number};

use crate::fault::TomlFault;
use sbe_value::{Bytes, Path};
use std::alloc::Global;
use toml::Value;

/// The greatest TOML integer; a greater number is a string of decimal digits.
const GREATEST_INTEGER: u128 = (1 << 63) - 1;

/// The greatest number that is held.
const GREATEST_HELD: u128 = (1 << 127) - 1;

/// The longest name in bytes.
const NAME_LIMIT: usize = 64;

/// A text.
///
/// # Errors
/// `WrongKind` with the empty path where the value is none.
pub fn read_text(alloc: Global, value: &Value) -> Result<Bytes, TomlFault>
    ensures { Reads result (text_of (view value.now)) }
{
    match value.as_str() {
        Some(text) => Ok(Bytes::from_slice(alloc, text.as_bytes())?),
        None => Err(TomlFault::WrongKind(Path::new(alloc))),
    }
}

fn is_name_byte(byte: u8) -> bool
    ensures { result ≡ is_name_byte byte }
{
    byte.is_ascii_alphanumeric() || byte == b'_'
}

fn are_name_bytes(bytes: &[u8]) -> bool
    ensures { result ≡ are_name_bytes bytes.now }
{
    for byte in bytes {
        if !is_name_byte(*byte) {
            return false;
        }
    }
    true
}

/// Whether a text is a name: 1 to 64 letters, digits or `_`, the first no digit.
pub fn is_name(text: &[u8]) -> bool
    ensures { result ≡ is_name text.now }
{
    match text {
        [] => false,
        [first, ..] => text.len() <= NAME_LIMIT && !first.is_ascii_digit() && are_name_bytes(text),
    }
}

/// A name.
///
/// # Errors
/// `WrongKind` where the value is no text and `Range` where the text is no name, each with the empty path.
pub fn read_name(alloc: Global, value: &Value) -> Result<Bytes, TomlFault>
    ensures { Reads result (name_of (view value.now)) }
{
    match value.as_str() {
        Some(text) if is_name(text.as_bytes()) => Ok(Bytes::from_slice(alloc, text.as_bytes())?),
        Some(_) => Err(TomlFault::Range(Path::new(alloc))),
        None => Err(TomlFault::WrongKind(Path::new(alloc))),
    }
}

fn are_digits(bytes: &[u8]) -> bool
    ensures { result ≡ are_digits bytes.now }
{
    for byte in bytes {
        if !byte.is_ascii_digit() {
            return false;
        }
    }
    true
}

/// The number that decimal digits spell, where they are some and it is above the greatest TOML integer;
/// a number above the greatest `u128` is answered as that one.
pub fn wide_number(text: &str) -> Option<u128>
    ensures { result ≡ option_map (λ n. min n (2 ^ 128 - 1)) (wide_number text.now) }
{
    if text.is_empty() || !are_digits(text.as_bytes()) {
        return None;
    }
    match text.parse::<u128>() {
        Ok(number) if number > GREATEST_INTEGER => Some(number),
        Ok(_) => None,
        Err(_) => Some(u128::MAX),
    }
}

/// A number that `i128` holds.
///
/// # Errors
/// `Range` with the empty path where it is past `i128`.
pub fn read_held(alloc: Global, number: u128) -> Result<i128, TomlFault>
    ensures { Reads result (held number) }
{
    if number <= GREATEST_HELD {
        Ok(number as i128)
    } else {
        Err(TomlFault::Range(Path::new(alloc)))
    }
}

/// A number: a TOML integer, or a string of decimal digits where it is above the greatest TOML integer.
///
/// # Errors
/// `WrongKind` where the value is none and `Range` where the number is past `i128`, each with the empty path.
pub fn read_number(alloc: Global, value: &Value) -> Result<i128, TomlFault>
    ensures { Reads result (number_of (view value.now)) }
{
    match value {
        Value::Integer(number) => Ok(*number as i128),
        Value::String(text) => match wide_number(text.as_str()) {
            Some(number) => read_held(alloc, number),
            None => Err(TomlFault::WrongKind(Path::new(alloc))),
        },
        _ => Err(TomlFault::WrongKind(Path::new(alloc))),
    }
}

/// A whole number from the least to the greatest.
///
/// # Errors
/// `WrongKind` where the value is no number and `Range` where it is another, each with the empty path.
pub fn read_natural(
    alloc: Global,
    value: &Value,
    least: u64,
    greatest: u64,
) -> Result<u64, TomlFault>
    ensures value { Reads result (natural_of least greatest (view value.now)) }
    ensures range { IfOk result (λ n. (least ≤ n) × (n ≤ greatest)) }
{
    let number = read_number(alloc, value)?;
    if least as i128 <= number && number <= greatest as i128 {
        Ok(number as u64)
    } else {
        Err(TomlFault::Range(Path::new(alloc)))
    }
}

//! The values of elements.

ghost use Rattle.std.specs.Prelude.{◌≡◌, ◌∷◌, ◌++◌, [], string_bytes, IfOk, IfSome, OnOk};
ghost use Rattle.hex.specs.Hex.{encode_lower};
ghost use Rattle.json.specs.Token as token;
ghost use Rattle.sbe_json.specs.Fields.{is_wide, number_token, text_of};

use itoa::Buffer;
use json::Writer;
use sbe_prim::{Primitive, can_hold};
use std::alloc::{AllocError, Global};
use std::str::from_utf8;

/// Bytes as a text: each is the character of its number.
///
/// # Errors
/// Want of memory.
pub fn text_of(alloc: Global, bytes: &[u8]) -> Result<String, AllocError>
    ensures { IfOk result (λ text. string_bytes text ≡ text_of bytes.now) }
{
    let mut text = String::new(alloc);
    for byte in bytes {
        text.push(char::from(*byte))?;
    }
    Ok(text)
}

/// Bytes as a text, where all are characters of ASCII, which need no memory.
#[tactic(auto, using(crate::proofs::Plain::ascii_encoded))]
fn plain(bytes: &[u8]) -> Option<&str>
    ensures { IfSome result (λ text. text.now ≡ text_of bytes.now) }
{
    if !bytes.is_ascii() {
        return None;
    }
    match from_utf8(bytes) {
        Ok(text) => Some(text),
        Err(_) => None,
    }
}

/// Whether many readers of JSON would not keep all bits of its numbers.
fn is_wide(prim: Primitive) -> bool
    ensures { result ≡ is_wide prim }
{
    matches!(prim, Primitive::Int64 | Primitive::UInt64)
}

/// Writes a number of this type.
pub fn write_number(writer: &mut Writer, prim: Primitive, number: i128) -> Result<(), AllocError>
    ensures before { writer.new.before ≡ writer.old.before }
    ensures tokens { OnOk result (writer.new.tokens ≡ writer.old.tokens ++ number_token prim number ∷ []) }
{
    if !is_wide(prim) && can_hold(Primitive::Int64, number) {
        return writer.i64(number as i64);
    }
    let mut digits = Buffer::new();
    writer.string(digits.format(number))
}

/// Writes a key.
pub fn write_key(alloc: Global, writer: &mut Writer, name: &[u8]) -> Result<(), AllocError>
    ensures before { writer.new.before ≡ writer.old.before }
    ensures tokens { OnOk result (writer.new.tokens ≡ writer.old.tokens ++ token.key (text_of name.now) ∷ []) }
{
    if let Some(text) = plain(name) {
        return writer.key(text);
    }
    let text = text_of(alloc, name)?;
    writer.key(text.as_str())
}

/// Writes a text.
pub fn write_text(alloc: Global, writer: &mut Writer, bytes: &[u8]) -> Result<(), AllocError>
    ensures before { writer.new.before ≡ writer.old.before }
    ensures tokens { OnOk result (writer.new.tokens ≡ writer.old.tokens ++ token.string (text_of bytes.now) ∷ []) }
{
    if let Some(text) = plain(bytes) {
        return writer.string(text);
    }
    let text = text_of(alloc, bytes)?;
    writer.string(text.as_str())
}

/// Writes bytes in hexadecimal.
pub fn write_hex(alloc: Global, writer: &mut Writer, bytes: &[u8]) -> Result<(), AllocError>
    ensures before { writer.new.before ≡ writer.old.before }
    ensures tokens { OnOk result (writer.new.tokens ≡ writer.old.tokens ++ token.string (encode_lower bytes.now) ∷ []) }
{
    let text = hex::encode(alloc, bytes)?;
    writer.string(text.as_str())
}

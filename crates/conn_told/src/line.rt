//! One line of OUT, and the text that it says.

ghost use Rattle.std.specs.Prelude.{◌≡◌, ℕ, ◌+◌, ◌≤◌, List, ◌++◌, codes, length, true, false, Ok, IfOk, IfSome, IfNone};
ghost use Rattle.std.specs.Int.{w16, to_be_bytes};
ghost use Rattle.hex.specs.Hex.{decode_of};
ghost use Rattle.sofh_frame.specs.Framing.{encoding_of};
ghost use Rattle.sbe_layout.specs.Legal.{LegalPlan};
ghost use Rattle.gw_lines.specs.Lines.{IsTold};
ghost use Rattle.conn_told.specs.Lines.{Begins, Delivers, TellsOther};
ghost use Rattle.conn_told.specs.Progress.{AddsLine, AddsMessage};

use crate::end::{Stop, Wrong};
use gw_lines::Found;
use hex::FromHexError;
use sbe_decode::{DecodeError, decode};
use sbe_grammar::read_fits;
use sbe_layout::Plan;
use sbe_prim::Order;
use sbe_text::write_lines;
use std::alloc::{AllocError, Global};
use text_words::number_before;

/// What stands behind the first word of a line that tells of an applied message.
fn behind_word(line: &[u8]) -> Option<&[u8]>
    ensures found { IfSome result (λ behind. line.now ≡ codes "deliver " ++ behind.now) }
    ensures none { IfNone result ((behind : List ℕ) → line.now ≡ codes "deliver " ++ behind → ⊥) }
{
    line.strip_prefix(b"deliver ")
}

/// The digits of the payload of a message that a line tells of.
fn digits_of(line: &[u8]) -> Option<&[u8]>
    ensures found { IfSome result (λ digits. Delivers line.now digits.now) }
    ensures none { IfNone result ((digits : List ℕ) → Delivers line.now digits → ⊥) }
{
    let behind = behind_word(line)?;
    match number_before(behind, b' ') {
        Some((_, digits)) => Some(digits),
        None => None,
    }
}

/// What stands behind the first word of a line that tells what a peer did not apply.
fn behind_not_applied(line: &[u8]) -> Option<&[u8]>
    ensures found { IfSome result (λ behind. line.now ≡ codes "notapplied " ++ behind.now) }
    ensures none { IfNone result ((behind : List ℕ) → line.now ≡ codes "notapplied " ++ behind → ⊥) }
{
    line.strip_prefix(b"notapplied ")
}

/// What stands behind the first word of a line that tells how a connection ended.
fn behind_connection(line: &[u8]) -> Option<&[u8]>
    ensures found { IfSome result (λ behind. line.now ≡ codes "connection " ++ behind.now) }
    ensures none { IfNone result ((behind : List ℕ) → line.now ≡ codes "connection " ++ behind → ⊥) }
{
    line.strip_prefix(b"connection ")
}

/// What stands behind the first word of a line that tells how a run ended.
fn behind_status(line: &[u8]) -> Option<&[u8]>
    ensures found { IfSome result (λ behind. line.now ≡ codes "status " ++ behind.now) }
    ensures none { IfNone result ((behind : List ℕ) → line.now ≡ codes "status " ++ behind → ⊥) }
{
    line.strip_prefix(b"status ")
}

/// Whether a line tells what a peer did not apply.
fn is_not_applied(line: &[u8]) -> bool
    ensures yes { result ≡ true → Begins line.now (codes "notapplied ") }
    ensures no { result ≡ false → Begins line.now (codes "notapplied ") → ⊥ }
{
    match behind_not_applied(line) {
        Some(_) => true,
        None => false,
    }
}

/// Whether a line tells how a connection ended.
fn is_connection(line: &[u8]) -> bool
    ensures yes { result ≡ true → Begins line.now (codes "connection ") }
    ensures no { result ≡ false → Begins line.now (codes "connection ") → ⊥ }
{
    match behind_connection(line) {
        Some(_) => true,
        None => false,
    }
}

/// Whether a line tells how a run ended.
fn is_status(line: &[u8]) -> bool
    ensures yes { result ≡ true → Begins line.now (codes "status ") }
    ensures no { result ≡ false → Begins line.now (codes "status ") → ⊥ }
{
    match behind_status(line) {
        Some(_) => true,
        None => false,
    }
}

/// Whether a line of OUT tells of something else than a message.
fn tells_other(line: &[u8]) -> bool
    ensures yes { result ≡ true → TellsOther line.now }
    ensures no { result ≡ false → TellsOther line.now → ⊥ }
{
    if is_not_applied(line) {
        return true;
    }
    if is_connection(line) {
        return true;
    }
    is_status(line)
}

/// The bytes that digits spell in hexadecimal.
fn payload_of(alloc: Global, digits: &[u8]) -> Result<Option<Vec<u8>>, AllocError>
    ensures found { IfOk result (λ o. IfSome o (λ bytes. decode_of digits.now ≡ Ok bytes.items)) }
    ensures none { IfOk result (λ o. IfNone o ((bytes : List ℕ) → decode_of digits.now ≡ Ok bytes → ⊥)) }
{
    match hex::decode(alloc, digits) {
        Ok(bytes) => Ok(Some(bytes)),
        Err(FromHexError::OutOfMemory) => Err(AllocError),
        Err(_) => Ok(None),
    }
}

/// The message of a payload that begins with the encoding type of a byte order.
fn message_of(order: Order, payload: &[u8]) -> Option<&[u8]>
    ensures found { IfSome result (λ message. payload.now ≡ to_be_bytes w16 (encoding_of order) ++ message.now) }
    ensures none { IfNone result ((message : List ℕ) → payload.now ≡ to_be_bytes w16 (encoding_of order) ++ message → ⊥) }
{
    match order {
        Order::Little => payload.strip_prefix(b"\xEB\x50"),
        Order::Big => payload.strip_prefix(b"\x5B\xE0"),
    }
}

/// Adds the text of a message.
fn add_message(alloc: Global, plan: &Plan, message: &[u8], text: &mut Vec<u8>) -> Result<(), Stop>
    requires { LegalPlan plan.now }
    ensures { AddsMessage plan.now message.now text.old.items text.new.items result }
{
    read_fits();
    match decode(alloc, plan, message) {
        Ok(message) => match write_lines(alloc, plan, &message, text) {
            Ok(()) => Ok(()),
            Err(_) => Err(Stop::Memory),
        },
        Err(DecodeError::Fault(fault)) => Err(Stop::Wrong(Wrong::Message(fault))),
        Err(DecodeError::Memory) => Err(Stop::Memory),
    }
}

/// Adds the text of the message whose payload these digits are.
fn add_digits(alloc: Global, plan: &Plan, digits: &[u8], text: &mut Vec<u8>) -> Result<(), Stop>
    requires { LegalPlan plan.now }
    ensures { (line : List ℕ) → Delivers line digits.now → AddsLine plan.now line text.old.items text.new.items result }
{
    let payload = match payload_of(alloc, digits) {
        Ok(Some(payload)) => payload,
        Ok(None) => return Err(Stop::Wrong(Wrong::Digits)),
        Err(_) => return Err(Stop::Memory),
    };
    match message_of(plan.order, payload.as_slice()) {
        Some(message) => add_message(alloc, plan, message, text),
        None => Err(Stop::Wrong(Wrong::Encoding)),
    }
}

/// Adds the text that a line says.
fn add_line(alloc: Global, plan: &Plan, line: &[u8], text: &mut Vec<u8>) -> Result<(), Stop>
    requires { LegalPlan plan.now }
    ensures { AddsLine plan.now line.now text.old.items text.new.items result }
{
    match digits_of(line) {
        Some(digits) => add_digits(alloc, plan, digits, text),
        None => {
            if tells_other(line) {
                Ok(())
            } else {
                Err(Stop::Wrong(Wrong::Form))
            }
        }
    }
}

/// Adds the text that a line says which a reader found.
pub(crate) fn add_found(
    alloc: Global,
    plan: &Plan,
    found: Found,
    line: &[u8],
    text: &mut Vec<u8>,
) -> Result<(), Stop>
    requires { LegalPlan plan.now }
    ensures { (says raw : List ℕ) → IsTold found line.now says raw → length raw ≤ length says + 1 → AddsLine plan.now says text.old.items text.new.items result }
{
    match found {
        Found::Whole => add_line(alloc, plan, line, text),
        Found::TooLong => Err(Stop::Wrong(Wrong::TooLong)),
    }
}

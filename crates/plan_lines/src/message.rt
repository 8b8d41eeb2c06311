//! The text of one message: where it ends, the bytes that its lines spell, and the line that gives them to a sender.

ghost use Rattle.std.specs.Prelude.{◌≡◌, ◌==◌, ◌||◌, ◌≤◌, ◌^◌, ◌↔◌, ◌++◌, Err, IfOk, IsTrue, OnOk, codes, length};
ghost use Rattle.hex.specs.Hex.{encode_lower};
ghost use Rattle.sofh_frame.specs.Framing.{encoding_of};
ghost use Rattle.fixp_msgs.specs.Numbering.{payload_of};
ghost use Rattle.text_words.specs.Lines.{lines_in};
ghost use Rattle.sbe_text.specs.Reading.{read_message};
ghost use Rattle.text_names.specs.Bare.{bare, is_blank};
ghost use Rattle.plan_text.specs.Plans.{Gift};
ghost use Rattle.plan_lines.specs.Lines.{gift_line, number_part};
ghost use Rattle.plan_lines.specs.Progress.{MakesBytes, ReadsAll, RefusesIn, TellsEnd};

use crate::form::Form;
use sbe_from_text::{Rooms, Unwritten, write_front};
use sbe_layout::Plan;
use sbe_prim::Order;
use sbe_text::{Refusal, first_message};
use std::alloc::{AllocError, Global};
use text_names::{Narrow, bare_line, front_message};
use text_words::{first_line, push_decimal, push_hex};

/// Whether a line that begins with this byte may say `end`: behind blanks, or at once.
fn may_begin_end(byte: u8) -> bool
    ensures { result ≡ (byte == 101 || is_blank byte) }
{
    byte == b'e' || byte == b' ' || byte == b'\t' || byte == b'\r'
}

/// Whether a line says `end`, with what a person may write around it. Most lines do not by their first byte, so that they are not read through.
#[tactic(auto, using(crate::proofs::Ending::no_end, crate::proofs::Ending::other_beginning))]
fn says_end(line: &[u8]) -> bool
    ensures { IsTrue result ↔ (bare line.now ≡ codes "end") }
{
    match line.first() {
        Some(first) if may_begin_end(*first) => bare_line(line) == b"end".as_slice(),
        _ => false,
    }
}

/// Whether the strict form asks for more lines behind these.
fn asks_for_more(alloc: Global, plan: &Plan, text: &[u8]) -> Result<bool, AllocError>
    ensures { IfOk result (λ more. IsTrue more ↔ (read_message plan.now.messages (lines_in text.now) ≡ Err 0)) }
{
    match first_message(alloc, plan, text) {
        Ok(_) => Ok(false),
        Err(Refusal::At(left)) => Ok(first_line(left).is_none()),
        Err(Refusal::Memory) => Err(AllocError),
    }
}

/// Whether a text, whose last line this is, has the whole of a message.
pub(crate) fn has_end(
    alloc: Global,
    plan: &Plan,
    text: &[u8],
    line: &[u8],
) -> Result<bool, AllocError>
    ensures { IfOk result (TellsEnd plan.now text.now line.now) }
{
    // the strict form goes on behind no such line
    if line == b"end".as_slice() {
        return Ok(true);
    }
    if !says_end(line) {
        return Ok(false);
    }
    Ok(!asks_for_more(alloc, plan, text)?)
}

/// Whether all of a text is one message.
///
/// # Errors
/// `At` with the text from the first line on that may not stand there, and `Memory`.
fn read_all<'a>(alloc: Global, plan: &Plan, text: &'a [u8]) -> Result<(), Refusal<'a>>
    ensures { ReadsAll plan.now text.now result }
{
    let mut narrow = Narrow::new(alloc);
    match front_message(alloc, plan, text, &mut narrow) {
        Ok(Some((_, rest))) => match first_line(rest) {
            None => Ok(()),
            Some(_) => Err(Refusal::At(rest)),
        },
        Ok(None) => Err(Refusal::At(&[])),
        Err(refusal) => Err(refusal),
    }
}

/// The first of the lines at the front of a message that may not stand there, and the text behind it; none where each may.
pub(crate) fn refused_in<'a>(
    alloc: Global,
    plan: &Plan,
    text: &'a [u8],
) -> Result<Option<&'a [u8]>, AllocError>
    ensures { IfOk result (RefusesIn plan.now (lines_in text.now)) }
{
    if asks_for_more(alloc, plan, text)? {
        return Ok(None);
    }
    match read_all(alloc, plan, text) {
        Ok(()) => Ok(None),
        Err(Refusal::At(left)) => match first_line(left) {
            None => Ok(None),
            Some(_) => Ok(Some(left)),
        },
        Err(Refusal::Memory) => Err(AllocError),
    }
}

/// Writes the bytes of the message that the lines of a text spell.
///
/// # Errors
/// `Line` with the text from the first line on that may not stand there, `Fault` with the first fault of the message, and `Memory`.
pub(crate) fn write_message<'a>(
    alloc: Global,
    plan: &Plan,
    text: &'a [u8],
    rooms: &mut Rooms,
) -> Result<(), Unwritten<'a>>
    ensures made { MakesBytes plan.now text.now rooms.new.sheet.bytes.items result }
    ensures short { OnOk result (length rooms.new.sheet.bytes.items ≤ 16384) }
{
    match write_front(alloc, plan, text, rooms) {
        Ok(Some(rest)) => match first_line(rest) {
            None => Ok(()),
            Some(_) => Err(Unwritten::Line(rest)),
        },
        Ok(None) => Err(Unwritten::Line(&[])),
        Err(unwritten) => Err(unwritten),
    }
}

/// The encoding type of SBE 1.0 in a byte order (Simple Open Framing Header).
fn encoding_of(order: Order) -> u16
    ensures { result ≡ encoding_of order }
{
    match order {
        Order::Little => 0xEB50,
        Order::Big => 0x5BE0,
    }
}

/// Adds the payload of a message in hexadecimal.
#[tactic(auto, using(crate::proofs::Giving::joined))]
fn push_payload(lines: &mut Vec<u8>, order: Order, message: &[u8]) -> Result<(), AllocError>
    requires { length message.now ≤ 2 ^ 20 }
    ensures { OnOk result (lines.new.items ≡ lines.old.items ++ encode_lower (payload_of (record { order = order; message = message.now }))) }
{
    push_hex(lines, &encoding_of(order).to_be_bytes())?;
    push_hex(lines, message)
}

/// Adds the number of a message and a blank, where lines have it.
fn push_numbered(lines: &mut Vec<u8>, form: Form, number: u64) -> Result<(), AllocError>
    ensures { OnOk result (lines.new.items ≡ lines.old.items ++ number_part form number) }
{
    match form {
        Form::Plain => Ok(()),
        Form::Numbered(_) => {
            push_decimal(lines, number)?;
            lines.extend_from_slice(b" ")
        }
    }
}

/// What a line gives to a sender.
#[derive(Clone, Copy)]
pub(crate) struct Given<'a> {
    pub(crate) sender: u16,
    /// The number of the message among its sender's.
    pub(crate) number: u64,
    pub(crate) order: Order,
    pub(crate) message: &'a [u8],
}

/// Adds the line that gives a message to a sender.
///
/// # Errors
/// Want of memory; then a part of the line may have been added.
#[tactic(auto, using(crate::proofs::Giving::line_parts))]
pub(crate) fn push_gift(lines: &mut Vec<u8>, form: Form, given: Given<'_>) -> Result<(), AllocError>
    requires { length given.message.now ≤ 2 ^ 20 }
    ensures { OnOk result (lines.new.items ≡ lines.old.items ++ gift_line form given.entry.number
        (record { sender = given.entry.sender; payload = payload_of (record { order = given.entry.order; message = given.entry.message.now }) })) }
{
    push_decimal(lines, u64::from(given.sender))?;
    lines.extend_from_slice(b" ")?;
    push_numbered(lines, form, given.number)?;
    push_payload(lines, given.order, given.message)?;
    lines.extend_from_slice(b"\n")
}

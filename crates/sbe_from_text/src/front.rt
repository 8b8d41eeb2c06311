//! The bytes of the message at the front of a text that a person may have written: straight from its lines where these are in
//! the strict form and have no fault, by a tree of it where not.

ghost use Rattle.std.specs.Prelude.{◌≡◌, ◌<◌, ◌≤◌, length, IfOk, IfSome};
ghost use Rattle.text_words.specs.Lines.{lines_in};
ghost use Rattle.sbe_from_text.specs.Fronts.{WritesFront};

use crate::message::{Sheet, write_text};
use sbe_encode::{EncodeError, EncodeFault, encode_into};
use sbe_layout::Plan;
use sbe_text::Refusal;
use std::alloc::Global;
use text_names::{Narrow, front_message};

/// Room that serves one message after another: for its bytes, and for its strict lines.
#[derive(Drop)]
pub struct Rooms {
    /// The bytes of the message that was written last.
    pub sheet: Sheet,
    narrow: Narrow,
}

impl Rooms {
    /// No room yet.
    pub fn new(alloc: Global) -> Rooms {
        Rooms {
            sheet: Sheet::new(alloc),
            narrow: Narrow::new(alloc),
        }
    }
}

/// Why no bytes are made of the message at the front of a text.
#[derive(Drop)]
pub enum Unwritten<'a> {
    /// The first line of this text is refused, which is left of the one that was read; it is empty where that ends too early.
    Line(&'a [u8]),
    /// The message may not be written.
    Fault(EncodeFault),
    /// There is not enough memory.
    Memory,
}

/// Writes the bytes of the message at the front of a text, and gives the text behind it. None where no line of the text has more
/// than blanks and a comment.
///
/// # Errors
/// `Line` with the text from the first line on that is refused, `Fault` with the first fault of the message, and `Memory`. The
/// bytes are of no meaning then.
pub fn write_front<'a>(
    alloc: Global,
    plan: &Plan,
    text: &'a [u8],
    rooms: &mut Rooms,
) -> Result<Option<&'a [u8]>, Unwritten<'a>>
    ensures told { WritesFront plan.now text.now rooms.new.sheet.bytes.items result }
    ensures short { IfOk result (λ read. IfSome read (λ _. length rooms.new.sheet.bytes.items ≤ 16384)) }
    ensures shorter { IfOk result (λ read. IfSome read (λ rest. length (lines_in rest.now) < length (lines_in text.now))) }
{
    // the wider form, and what is wrong with a message, are told by its tree
    match write_text(alloc, plan, text, &mut rooms.sheet) {
        Some(rest) => Ok(Some(rest)),
        None => write_tree(alloc, plan, text, rooms),
    }
}

// The same by a tree of the message.
fn write_tree<'a>(
    alloc: Global,
    plan: &Plan,
    text: &'a [u8],
    rooms: &mut Rooms,
) -> Result<Option<&'a [u8]>, Unwritten<'a>>
    ensures told { WritesFront plan.now text.now rooms.new.sheet.bytes.items result }
    ensures short { IfOk result (λ read. IfSome read (λ _. length rooms.new.sheet.bytes.items ≤ 16384)) }
    ensures shorter { IfOk result (λ read. IfSome read (λ rest. length (lines_in rest.now) < length (lines_in text.now))) }
{
    match front_message(alloc, plan, text, &mut rooms.narrow) {
        Ok(None) => Ok(None),
        Ok(Some((message, rest))) => {
            match encode_into(alloc, plan, &message, &mut rooms.sheet.bytes) {
                Ok(()) => Ok(Some(rest)),
                Err(EncodeError::Fault(fault)) => Err(Unwritten::Fault(fault)),
                Err(EncodeError::Memory) => Err(Unwritten::Memory),
            }
        }
        Err(Refusal::At(at)) => Err(Unwritten::Line(at)),
        Err(Refusal::Memory) => Err(Unwritten::Memory),
    }
}

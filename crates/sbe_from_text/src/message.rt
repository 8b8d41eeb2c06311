//! A whole message: its header, its root block, and the line `end`.

ghost use Rattle.std.specs.Prelude.{◌≡◌, ◌<◌, ◌≤◌, [], length, IfSome};
ghost use Rattle.text_words.specs.Lines.{lines_in};
ghost use Rattle.sbe_from_text.specs.Written.{IsWritten};

use crate::blocks::write_block;
use sbe_encode::{LONGEST, write_header};
use sbe_layout::Plan;
use sbe_text::{read_end, read_layout};
use std::alloc::Global;

/// Room for the bytes of one message after another.
#[derive(Drop)]
pub struct Sheet {
    /// The bytes of the message so far.
    pub bytes: Vec<u8>,
    /// What stands before the names in the block at hand.
    pub names: Vec<u8>,
}

impl Sheet {
    /// No room yet.
    pub fn new(alloc: Global) -> Sheet {
        Sheet {
            bytes: Vec::new(alloc),
            names: Vec::new(alloc),
        }
    }

    // Drops the bytes of the message before.
    fn begin(&mut self)
        ensures bytes { self.new.bytes.items ≡ [] }
        ensures names { self.new.names.items ≡ [] }
    {
        self.bytes.clear();
        self.names.clear();
    }
}

/// Writes the bytes of the message at the front of a text, by the plan of its schema: those that `encode` makes of it. Gives the
/// text behind its line `end`. None where a line is refused, the message may not be written, or memory runs out; and where it
/// has to be read as a tree, as one with a group of more than 65,535 entries. The bytes are of no meaning then.
pub fn write_text<'a>(
    alloc: Global,
    plan: &Plan,
    text: &'a [u8],
    sheet: &mut Sheet,
) -> Option<&'a [u8]>
    ensures written { IfSome result (λ rest. IsWritten plan.now text.now rest.now sheet.new.bytes.items) }
    ensures short { IfSome result (λ _. length sheet.new.bytes.items ≤ 16384) }
    ensures shorter { IfSome result (λ rest. length (lines_in rest.now) < length (lines_in text.now)) }
{
    let rest = write_whole(alloc, plan, text, sheet)?;
    Some(rest)
}

fn write_whole<'a>(
    alloc: Global,
    plan: &Plan,
    text: &'a [u8],
    sheet: &mut Sheet,
) -> Option<&'a [u8]>
    ensures written { IfSome result (λ rest. IsWritten plan.now text.now rest.now sheet.new.bytes.items) }
    ensures short { IfSome result (λ _. length sheet.new.bytes.items ≤ 16384) }
{
    let Ok((layout, left)) = read_layout(&plan.messages, text) else {
        return None;
    };
    sheet.begin();
    let Ok(()) = write_header(alloc, plan, layout, layout.template, &mut sheet.bytes) else {
        return None;
    };
    let listings = plan.listings.as_slice();
    let left = write_block(alloc, plan.order, listings, &layout.root, left, sheet)?;
    let Ok(rest) = read_end(left) else {
        return None;
    };
    if sheet.bytes.len() > LONGEST {
        return None;
    }
    Some(rest)
}

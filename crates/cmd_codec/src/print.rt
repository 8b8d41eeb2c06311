//! The lines of one frame.

ghost use Rattle.std.specs.Prelude.{◌≡◌, Err, OnOk};
ghost use Rattle.sbe_decode.specs.declared.error.DecodeError.TheVariants.{Fault};
ghost use Rattle.sbe_grammar.specs.Reading.{message_in};
ghost use Rattle.sbe_grammar.specs.declared.fault.DecodeFault.{DecodeFault};
ghost use Rattle.cmd_codec.specs.Decoded.{is_order, lines_of_frame};
ghost use Rattle.cmd_codec.specs.Decoding.{HasShown, Prints};

use crate::shown::Shown;
use cmd_base::{Bad, Status};
use sbe_decode::DecodeError;
use sbe_layout::Plan;
use sbe_prim::Order;
use sbe_text::{Draft, print_wire};
use std::alloc::Global;
use text_names::print_names;

/// A frame of the input.
#[derive(Clone, Copy)]
pub struct Placed<'a> {
    /// Its number, from 1.
    pub number: u64,
    /// Its place in the input, in bytes from 0.
    pub place: u64,
    /// The byte order that its encoding type names.
    pub order: Order,
    /// Its message.
    pub message: &'a [u8],
}

/// Whether two byte orders are one.
fn is_order(one: Order, other: Order) -> bool
    ensures { result ≡ is_order one other }
{
    match (one, other) {
        (Order::Little, Order::Little) | (Order::Big, Order::Big) => true,
        (Order::Little, Order::Big) | (Order::Big, Order::Little) => false,
    }
}

/// Room for the lines of one message.
#[derive(Drop)]
pub struct Page {
    draft: Draft,
    strict: Vec<u8>,
}

impl Page {
    /// No room yet.
    pub fn new(alloc: Global) -> Page {
        Page {
            draft: Draft::new(alloc),
            strict: Vec::new(alloc),
        }
    }
}

// Adds the lines of a message as they are shown.
fn print_shown(
    alloc: Global,
    shown: Shown,
    plan: &Plan,
    message: &[u8],
    page: &mut Page,
    lines: &mut Vec<u8>,
) -> Result<(), DecodeError>
    ensures lines { OnOk result (HasShown shown plan.now message.now lines.old.items lines.new.items) }
    ensures fault { (f : DecodeFault) → result ≡ Err (Fault f) → message_in plan.now message.now ≡ Err f }
    ensures kept { (f : DecodeFault) → result ≡ Err (Fault f) → lines.new.items ≡ lines.old.items }
{
    match shown {
        Shown::Numbers => print_wire(alloc, plan, message, &mut page.draft, lines),
        Shown::Names => {
            page.strict.clear();
            print_wire(alloc, plan, message, &mut page.draft, &mut page.strict)?;
            print_names(alloc, plan, page.strict.as_slice(), lines)?;
            Ok(())
        }
    }
}

/// Adds the lines of the message of a frame.
///
/// # Errors
/// `Message` with what is wrong with the frame, and `Memory`.
pub fn print_frame(
    alloc: Global,
    shown: Shown,
    plan: &Plan,
    frame: Placed<'_>,
    page: &mut Page,
    lines: &mut Vec<u8>,
) -> Result<(), Status>
    ensures { Prints (lines_of_frame shown plan.now frame.entry.number frame.entry.place (record { order = frame.entry.order; message = frame.entry.message.now })) lines.old.items lines.new.items result }
{
    if !is_order(frame.order, plan.order) {
        return Err(Status::Message(Bad::Frame { at: frame.place }));
    }
    match print_shown(alloc, shown, plan, frame.message, page, lines) {
        Ok(()) => Ok(()),
        Err(DecodeError::Fault(fault)) => Err(Status::Message(Bad::Decode {
            frame: frame.number,
            fault,
        })),
        Err(DecodeError::Memory) => Err(Status::Memory),
    }
}

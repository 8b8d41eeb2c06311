//! The messages of a text, one after another: whether all of them can be read, and their frames. Only one message is in
//! memory at a time, beside the text and frames of about its size.

ghost use Rattle.std.specs.Prelude.{◌≡◌, ◌≤◌, [], length, OnOk, OnErr};
ghost use Rattle.gw_outside.specs.Faults.{HasCause, HasRisen, TakesFront};
ghost use Rattle.cmd_codec.specs.Encoding.{IsMade, Makes, MakesFront, Pushed, PushesLast, Reads, WritesOne};
ghost use Rattle.cmd_codec.specs.Encoded.{text_limit};
ghost use Rattle.cmd_codec.specs.Encodes.{LeavesWire, Writes};

use crate::frame::add_bytes;
use cmd_base::{Bad, Status};
use gw_outside::{Failed, Sink, push_all};
use sbe_from_text::{Rooms, Unwritten, write_front};
use sbe_layout::Plan;
use sbe_text::Refusal;
use std::alloc::Global;
use text_names::{Narrow, front_message};

/// How many bytes of frames wait at least before they are pushed.
const PIECE: usize = 32_768;

// Reads all messages of a text, and keeps none of them.
fn read_all<'a>(alloc: Global, plan: &Plan, text: &'a [u8]) -> Result<(), Refusal<'a>>
    ensures { Reads plan.now text.now result }
{
    let mut narrow = Narrow::new(alloc);
    let mut left = text;
    while !left.is_empty() {
        match front_message(alloc, plan, left, &mut narrow) {
            Ok(Some((_, rest))) => left = rest,
            Ok(None) => return Ok(()),
            Err(refusal) => return Err(refusal),
        }
    }
    Ok(())
}

// Adds the frame of the message at the front of a text, and gives the text behind it. None where no message is left.
fn write_message<'a>(
    alloc: Global,
    plan: &Plan,
    left: &'a [u8],
    rooms: &mut Rooms,
    frames: &mut Vec<u8>,
) -> Result<Option<&'a [u8]>, Unwritten<'a>>
    ensures { WritesOne plan.now left.now frames.old.items frames.new.items result }
{
    match write_front(alloc, plan, left, rooms) {
        Ok(Some(rest)) => match add_bytes(plan.order, rooms.sheet.bytes.as_slice(), frames) {
            Ok(()) => Ok(Some(rest)),
            Err(_) => Err(Unwritten::Memory),
        },
        Ok(None) => Ok(None),
        Err(unwritten) => Err(unwritten),
    }
}

/// How far the frames of a text are made.
#[derive(Clone, Copy)]
pub struct Place<'a> {
    /// The text from the next message on.
    pub left: &'a [u8],
    /// The number of that message, from 1.
    pub number: u64,
}

// Makes the frames of the messages at the front of a text: as long as they take no more memory than the text does, and up to
// the first message that may not be written.
fn make_front<'a>(
    alloc: Global,
    plan: &Plan,
    text: &'a [u8],
    frames: &mut Vec<u8>,
) -> Result<Place<'a>, Refusal<'a>>
    requires empty { frames.old.items ≡ [] }
    requires short { length text.now ≤ text_limit }
    ensures { MakesFront plan.now text.now frames.new.items result }
{
    let mut rooms = Rooms::new(alloc);
    let mut number = 1;
    let mut left = text;
    while !left.is_empty() && frames.len() <= text.len() {
        match write_message(alloc, plan, left, &mut rooms, frames) {
            Ok(Some(rest)) => {
                number += 1;
                left = rest;
            }
            Ok(None) => return Ok(Place { left, number }),
            Err(Unwritten::Line(at)) => return Err(Refusal::At(at)),
            Err(Unwritten::Fault(_)) => return Ok(Place { left, number }),
            Err(Unwritten::Memory) => return Err(Refusal::Memory),
        }
    }
    Ok(Place { left, number })
}

/// Reads all messages of a text, and makes the frames of those at its front. The others are read to see that no line of the
/// text is refused, and not kept: one line may stand for a block of 16,384 bytes.
///
/// # Errors
/// `At` with the text from the first line on that is refused, and `Memory`.
pub fn make_frames<'a>(
    alloc: Global,
    plan: &Plan,
    text: &'a [u8],
    frames: &mut Vec<u8>,
) -> Result<Place<'a>, Refusal<'a>>
    requires empty { frames.old.items ≡ [] }
    requires short { length text.now ≤ text_limit }
    ensures { Makes plan.now text.now frames.new.items result }
{
    let place = make_front(alloc, plan, text, frames)?;
    match read_all(alloc, plan, place.left) {
        Ok(()) => Ok(place),
        Err(refusal) => Err(refusal),
    }
}

// Pushes the frames that wait, where they are enough.
fn push_full<K: Sink>(wire: &mut K, frames: &mut Vec<u8>) -> Result<(), Failed>
    ensures ok { OnOk result (Pushed (K.taken wire.old) (K.taken wire.new) frames.old.items frames.new.items) }
    ensures err { OnErr result (TakesFront (K.taken wire.old) (K.taken wire.new) frames.old.items) }
    ensures kept { OnErr result (frames.new.items ≡ frames.old.items) }
    ensures cause { HasCause (K.faults wire.old) (K.faults wire.new) result }
{
    if frames.len() < PIECE {
        return Ok(());
    }
    push_all(wire, frames.as_slice())?;
    frames.clear();
    Ok(())
}

// Pushes the frames that wait behind the last message.
fn push_last<K: Sink>(wire: &mut K, frames: &[u8]) -> Status
    ensures pushes { PushesLast (K.taken wire.old) (K.taken wire.new) frames.now result }
    ensures begun { LeavesWire result → ⊥ }
    ensures counted { K.faults wire.old ≤ K.faults wire.new }
    ensures cause { result ≡ Status.OutputFault → HasRisen (K.faults wire.old) (K.faults wire.new) }
{
    match push_all(wire, frames) {
        Ok(()) => Status::Done,
        Err(_) => Status::OutputFault,
    }
}

/// Pushes the frames that wait, and writes those of the messages from a place on, up to the first that may not be written.
/// The text can be read.
pub fn write_all<K: Sink>(
    alloc: Global,
    plan: &Plan,
    text: &[u8],
    place: Place<'_>,
    frames: &mut Vec<u8>,
    wire: &mut K,
) -> Status
    requires made { IsMade plan.now text.now place frames.old.items }
    requires short { length text.now ≤ text_limit }
    ensures writes { Writes plan.now text.now (K.taken wire.old) (K.taken wire.new) result }
    ensures begun { LeavesWire result → ⊥ }
    ensures counted { K.faults wire.old ≤ K.faults wire.new }
    ensures cause { result ≡ Status.OutputFault → HasRisen (K.faults wire.old) (K.faults wire.new) }
{
    let _ = text;
    let mut rooms = Rooms::new(alloc);
    let mut number = place.number;
    let mut left = place.left;
    while !left.is_empty() {
        match write_message(alloc, plan, left, &mut rooms, frames) {
            Ok(Some(rest)) => {
                let Ok(()) = push_full(wire, frames) else {
                    return Status::OutputFault;
                };
                number += 1;
                left = rest;
            }
            Ok(None) => return push_last(wire, frames.as_slice()),
            Err(Unwritten::Fault(fault)) => {
                let Ok(()) = push_all(wire, frames.as_slice()) else {
                    return Status::OutputFault;
                };
                return Status::Message(Bad::Encode {
                    message: number,
                    fault,
                });
            }
            // A text that was read once is read again.
            Err(Unwritten::Line(_)) | Err(Unwritten::Memory) => return Status::Memory,
        }
    }
    push_last(wire, frames.as_slice())
}

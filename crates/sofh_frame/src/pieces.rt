//! The frames of bytes that come in pieces: the same ones, however the bytes were cut.
//! It relies on the framer.

ghost use Rattle.std.specs.Prelude.{◌≡◌, ℕ, [], ◌∷◌, ◌++◌, ◌+◌, ◌-◌, ◌<◌, ◌≤◌, List, length, min, take, drop, IfOk, IfNone, IfSome, OnOk, IsTrue, ◌↔◌};
ghost use Rattle.sofh_frame.specs.Framing.{rest};
ghost use Rattle.sofh_frame.specs.OwnedSplit.{frames_seen, end_seen, joined, SplitsAs, IsRead, IsEndAt};

use crate::Order;
use crate::buffer::{Framer, ROOM};
use crate::header::FirstFrame;
use std::alloc::{AllocError, Global};

/// A frame with a message of its own.
#[derive(Drop)]
pub struct OwnedFrame {
    /// The byte order that the encoding type names.
    pub order: Order,
    /// The message behind the header: 8 to 16,384 bytes.
    pub message: Vec<u8>,
}

/// Why no frame stands where the frames end.
#[derive(Clone, Copy, Debug)]
pub enum End {
    /// The bytes end, maybe inside a frame.
    Rest,
    /// The header's length, which is below 14 or above 16,390.
    BadLength(u32),
    /// The header's encoding type, which is neither 0xEB50 nor 0x5BE0.
    BadEncoding(u16),
}

/// The frames of some bytes, and what follows them.
#[derive(Drop)]
pub struct Split {
    /// The whole frames, in order.
    pub frames: Vec<OwnedFrame>,
    /// The place of what follows them, in bytes from the first.
    pub at: u64,
    /// What stands at that place.
    pub end: End,
}

impl End {
    /// Whether more bytes may still bring a frame.
    fn is_rest(self) -> bool
        ensures { IsTrue result ↔ (end_seen self ≡ rest) }
    {
        matches!(self, End::Rest)
    }
}

impl Split {
    /// Adds a frame behind the others.
    fn push(
        &mut self,
        alloc: Global,
        order: Order,
        message: &[u8],
        size: usize,
    ) -> Result<(), AllocError>
        requires { size ≡ 6 + length message.now }
        ensures frames { OnOk result (frames_seen self.new.frames.items
            ≡ frames_seen self.old.frames.items ++ (record { order = order; message = message.now }) ∷ []) }
        ensures at { OnOk result (self.new.at ≡ self.old.at + size) }
    {
        // What is kept of the frames is in memory, so their bytes can only be too many for 64 bits
        // where there is no memory.
        let at = self.at.checked_add(size as u64).ok_or(AllocError)?;
        let message = Vec::from_slice(alloc, message)?;
        self.frames.push(OwnedFrame { order, message })?;
        self.at = at;
        Ok(())
    }
}

/// Copies from the front of `from` to that of `into`, as far as both reach, and tells how many bytes.
fn copy_front(into: &mut [u8], from: &[u8]) -> usize
    ensures count { result ≡ min (length into.old) (length from.now) }
    ensures copied { take result into.new ≡ take result from.now }
{
    let n = into.len().min(from.len());
    into[..n].copy_from_slice(&from[..n]);
    n
}

/// Copies as much of `piece` as there is room for, and tells how many bytes that is.
fn pour(framer: &mut Framer, piece: &[u8]) -> usize
    ensures count { result ≡ min (ROOM - length framer.old.held) (length piece.now) }
    ensures held { framer.new.held ≡ framer.old.held ++ take result piece.now }
{
    let n = copy_front(framer.room(), piece);
    framer.filled(n);
    n
}

/// Moves the frame at the front from the framer to the split, or tells why there is none.
fn take_frame(
    alloc: Global,
    framer: &mut Framer,
    split: &mut Split,
) -> Result<Option<End>, AllocError>
    ensures read { OnOk result ((bytes : List ℕ) → IsRead bytes split.old framer.old.held → IsRead bytes split.new framer.new.held) }
    ensures taken { IfOk result (λ none. IfNone none (length framer.new.held < length framer.old.held)) }
    ensures end { IfOk result (λ none. IfSome none (λ end. IsEndAt end framer.new.held)) }
{
    match framer.peek() {
        FirstFrame::Frame {
            order,
            message,
            size,
        } => {
            split.push(alloc, order, message, size)?;
            framer.drop_front(size);
            Ok(None)
        }
        FirstFrame::Rest => Ok(Some(End::Rest)),
        FirstFrame::BadLength(length) => Ok(Some(End::BadLength(length))),
        FirstFrame::BadEncoding(encoding) => Ok(Some(End::BadEncoding(encoding))),
    }
}

/// Moves all whole frames from the framer to the split, and tells why no other follows.
fn take_frames(alloc: Global, framer: &mut Framer, split: &mut Split) -> Result<End, AllocError>
    ensures read { OnOk result ((bytes : List ℕ) → IsRead bytes split.old framer.old.held → IsRead bytes split.new framer.new.held) }
    ensures end { IfOk result (λ end. IsEndAt end framer.new.held) }
{
    loop {
        if let Some(end) = take_frame(alloc, framer, split)? {
            return Ok(end);
        }
    }
}

/// Takes a piece up to its end, or up to a fault, and tells how many of its bytes it took.
fn feed(
    alloc: Global,
    framer: &mut Framer,
    split: &mut Split,
    piece: &[u8],
) -> Result<usize, AllocError>
    requires rest { end_seen split.old.end ≡ rest }
    requires end { IsEndAt split.old.end framer.old.held }
    ensures read { IfOk result (λ taken. (bytes : List ℕ) → IsRead bytes split.old framer.old.held
        → IsRead (bytes ++ take taken piece.now) split.new framer.new.held) }
    ensures end { OnOk result (IsEndAt split.new.end framer.new.held) }
    ensures within { IfOk result (λ taken. taken ≤ length piece.now) }
    ensures all { IfOk result (λ taken. end_seen split.new.end ≡ rest → taken ≡ length piece.now) }
{
    let mut taken = 0;
    while taken < piece.len() && split.end.is_rest() {
        let (_, unread) = piece.split_at(taken);
        taken += pour(framer, unread);
        split.end = take_frames(alloc, framer, split)?;
    }
    Ok(taken)
}

/// The frames of bytes that come in these pieces, of any sizes, and what follows the frames.
/// They are those of the pieces joined, however the bytes were cut.
///
/// # Errors
/// `AllocError` if there is no memory for the frames.
pub fn split_pieces(alloc: Global, pieces: &[&[u8]]) -> Result<Split, AllocError>
    ensures any_cut { IfOk result (SplitsAs (joined pieces.now)) }
{
    let mut framer = Framer::new(alloc)?;
    let mut split = Split {
        frames: Vec::new(alloc),
        at: 0,
        end: End::Rest,
    };
    for piece in pieces {
        let _taken = feed(alloc, &mut framer, &mut split, piece)?;
        if !split.end.is_rest() {
            return Ok(split);
        }
    }
    Ok(split)
}

//! A buffer that takes bytes in pieces of any size, and shows the first frame of those that it holds.
//! It relies on the first frame of a slice.

ghost use Rattle.std.specs.Prelude.{◌≡◌, ℕ, [], ◌++◌, ◌+◌, ◌≤◌, ◌↔◌, length, take, drop, IfOk, IsTrue};
ghost use Rattle.std.specs.Borrow.{sem};
ghost use Rattle.sofh_frame.specs.Framing.{first_of, Frame, frame, BeginsWith, IfFrame};
ghost use Rattle.sofh_frame.specs.FirstFrame.{seen};
ghost use Rattle.sofh_frame.specs.Lending.{LendsRoom};

use crate::header::{FirstFrame, next};
use std::alloc::{AllocError, Global};
use std::marker::Model;

/// The most bytes that a `Framer` holds: two of the largest frames.
pub const ROOM: usize = 32_780;

/// Twice the room, so that bytes move to the front only after as many were dropped.
const BUFFER: usize = 2 * ROOM;

/// Bytes that wait to be read as frames, and room for more.
#[derive(Drop)]
pub struct Framer {
    /// `BUFFER` bytes, of which those from `start` to `end` are held.
    buffer: Vec<u8>,
    start: usize,
    end: usize,
}

impl Model for Framer {
    ghost use Rattle.std.specs.Prelude.{vec_len};
    ghost use Rattle.sofh_frame.specs.Buffered.{Buffered, buffered, IsPlaced};

    ghost Value = { Buffered };

    ghost view = { λ f. buffered f.buffer.items f.start f.end };

    ghost invariant = { λ f. IsPlaced f.start f.end (vec_len f.buffer) };
}

impl Framer {
    /// A framer that holds nothing, with `ROOM` bytes of room. It takes all of its memory here.
    ///
    /// # Errors
    /// `AllocError` if there is no memory for the buffer.
    pub fn new(alloc: Global) -> Result<Framer, AllocError>
        ensures held { IfOk result (λ f. f.held ≡ []) }
        ensures size { IfOk result (λ f. length f.room ≡ ROOM) }
    {
        Ok(Framer {
            buffer: vec![in alloc; 0; BUFFER]?,
            start: 0,
            end: 0,
        })
    }

    /// Whether no bytes are held.
    pub fn is_empty(&self) -> bool
        ensures { IsTrue result ↔ (self.now.held ≡ []) }
    {
        self.start == self.end
    }

    /// The room behind the bytes held: `ROOM` bytes less those that are held. What it contains is left open.
    pub fn room(&mut self) -> &mut [u8]
        ensures* lends { sem 𝓛 (LendsRoom self.entry result) }
        ensures value { result.now ≡ self.old.room }
        ensures size { length result.now + length self.old.held ≡ ROOM }
    {
        let stop = self.start + ROOM;
        self.buffer.slice_mut(self.end..stop)
    }

    /// Holds the first `n` bytes of the room too, behind the others; `n` is at most the room's length.
    pub fn filled(&mut self, n: usize)
        requires { n ≤ length self.old.room }
        ensures held { self.new.held ≡ self.old.held ++ take n self.old.room }
        ensures size { length self.new.room + length self.new.held ≡ ROOM }
    {
        self.end += n;
    }

    /// The first frame of the bytes held, as `next` answers it.
    pub fn peek(&self) -> FirstFrame<'_>
        ensures exact { seen result ≡ first_of self.now.held }
        ensures found { IfFrame (seen result) (BeginsWith self.now.held) }
        ensures only { (f : Frame) (size : ℕ) → BeginsWith self.now.held f size
            → seen result ≡ frame f.order f.message size }
        ensures size { length self.now.room + length self.now.held ≡ ROOM }
    {
        next(&self.buffer[self.start..self.end])
    }

    /// Forgets the first `n` bytes held, which are at most all of them. The others move only where more
    /// than `ROOM` bytes were dropped since they moved last.
    pub fn drop_front(&mut self, n: usize)
        requires { n ≤ length self.old.held }
        ensures held { self.new.held ≡ drop n self.old.held }
        ensures size { length self.new.room + length self.new.held ≡ ROOM }
    {
        self.start += n;
        if self.start > ROOM {
            self.buffer.copy_within(self.start..self.end, 0);
            self.end -= self.start;
            self.start = 0;
        }
    }
}

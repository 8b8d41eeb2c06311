//! A pipe: two links in memory, each of which gives what the other took.

ghost use Rattle.std.specs.Prelude.{◌≡◌, [], ◌+◌, ◌-◌, ◌<◌, ◌≤◌, true, length, min, take, None, Some, IfOk, IsOk, OnErr};
ghost use Rattle.gw_outside.specs.Faults.{HasCause};
ghost use Rattle.gw_links.specs.Links.{IsAnswer, IsWithin, Moved, TookFront, gave, gives_lesser};
ghost use Rattle.gw_link_fakes.specs.Pipes.{End, cut_off, new_pipe, received_at, room_behind, sent_at, told_at};
ghost use Rattle.gw_link_fakes.specs.declared.pipe.Side.TheVariants.{Left, Right};

use crate::lane::Lane;
use gw_links::{Got, Link};
use gw_outside::Failed;
use std::alloc::{AllocError, Global};
use std::marker::Model;

/// An end of a pipe.
#[derive(Clone, Copy)]
pub enum Side {
    /// The left end.
    Left,
    /// The right end.
    Right,
}

/// Bytes under way between two ends, within a fixed room each way.
#[derive(Drop)]
pub struct Pipe {
    to_left: Lane,
    to_right: Lane,
    room: usize,
    is_cut: bool,
}

impl Model for Pipe {
    ghost use Rattle.std.specs.Prelude.{◌≤◌, length, vec_capacity};
    ghost use Rattle.gw_link_fakes.specs.Lanes.{under_way};
    ghost use Rattle.gw_link_fakes.specs.Pipes.{Held};

    ghost Value = { Held };

    ghost view = { λ p. record { to_left = under_way p.to_left; to_right = under_way p.to_right; room = p.room; is_cut = p.is_cut } };

    ghost invariant = { λ p. (length (under_way p.to_left) ≤ p.room) × (length (under_way p.to_right) ≤ p.room) × (p.room ≤ vec_capacity p.to_left.bytes) × (p.room ≤ vec_capacity p.to_right.bytes) };
}

impl Pipe {
    /// A pipe with a room of `room` bytes each way.
    ///
    /// # Errors
    /// Want of memory for the room.
    pub fn new(alloc: Global, room: usize) -> Result<Pipe, AllocError>
        ensures { IfOk result (λ p. p ≡ new_pipe room) }
    {
        Ok(Pipe {
            to_left: Lane::new(alloc, room)?,
            to_right: Lane::new(alloc, room)?,
            room,
            is_cut: false,
        })
    }

    /// The left end, for as long as it is used.
    pub fn left(&mut self) -> MemLink<'_>
        ensures same { result.pipe.ghost_name ≡ self.entry.ghost_name }
        ensures value { result.pipe.now ≡ self.old }
        ensures side { result.side ≡ Left }
    {
        MemLink {
            pipe: self,
            side: Side::Left,
        }
    }

    /// The right end, for as long as it is used.
    pub fn right(&mut self) -> MemLink<'_>
        ensures same { result.pipe.ghost_name ≡ self.entry.ghost_name }
        ensures value { result.pipe.now ≡ self.old }
        ensures side { result.side ≡ Right }
    {
        MemLink {
            pipe: self,
            side: Side::Right,
        }
    }

    /// Cuts the pipe: what is under way is lost, and both ends give their end from now on and take nothing.
    pub fn cut(&mut self)
        ensures { self.new ≡ cut_off self.old }
    {
        self.to_left.clear();
        self.to_right.clear();
        self.is_cut = true;
    }

    /// Whether the pipe was cut.
    pub fn is_cut(&self) -> bool
        ensures { result ≡ self.now.is_cut }
    {
        self.is_cut
    }

    /// The room that is left behind so many bytes under way.
    fn room_behind(&self, count: usize) -> usize
        requires { count ≤ self.now.room }
        ensures { (bytes : _) → length bytes ≡ count → result ≡ room_behind self.now bytes }
    {
        if self.is_cut { 0 } else { self.room - count }
    }

    /// Gives what is under way to a side into the front of `into`, as many bytes as it takes, and answers how many.
    fn give(&mut self, side: Side, into: &mut [u8]) -> usize
        ensures count { result ≡ min (length into.old) (length (told_at side self.old).waits) }
        ensures front { take result into.new ≡ take result (told_at side self.old).waits }
        ensures after { self.new ≡ received_at side (length into.old) self.old }
    {
        match side {
            Side::Left => self.to_left.give(into),
            Side::Right => self.to_right.give(into),
        }
    }

    /// Takes as many bytes from a side as it has room for, and answers how many.
    fn take(&mut self, side: Side, bytes: &[u8]) -> usize
        ensures count { result ≡ min (length bytes.now) (told_at side self.old).room }
        ensures after { self.new ≡ sent_at side bytes.now self.old }
    {
        let under_way = match side {
            Side::Left => self.to_right.len(),
            Side::Right => self.to_left.len(),
        };
        let count = bytes.len().min(self.room_behind(under_way));
        let (front, _) = bytes.split_at(count);
        match side {
            Side::Left => self.to_right.take(front),
            Side::Right => self.to_left.take(front),
        }
        count
    }
}

/// An end of a pipe that is lent.
#[derive(Drop)]
pub struct MemLink<'a> {
    pipe: &'a mut Pipe,
    side: Side,
}

impl Link for MemLink<'_> {
    ghost told = { λ l. Some (told_at l.side l.pipe.now) };

    ghost carried = { λ l. None };

    ghost eager = { true };

    ghost Place = { End };

    ghost place = { λ l. record { pipe = l.pipe.ghost_name; side = l.side } };

    ghost faults = { λ l. 0 };

    fn recv(&mut self, into: &mut [u8], _patience: u64) -> Result<Got, Failed> {
        let count = self.pipe.give(self.side, into);
        if count > 0 {
            return Ok(Got::Bytes(count));
        }
        if self.pipe.is_cut() {
            return Ok(Got::End);
        }
        Ok(Got::Quiet)
    }

    fn send(&mut self, bytes: &[u8]) -> Result<usize, Failed> {
        Ok(self.pipe.take(self.side, bytes))
    }
}

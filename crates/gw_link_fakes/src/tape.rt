//! A tape: a link that gives bytes that were written down before, and then its end.

ghost use Rattle.std.specs.Prelude.{◌≡◌, [], ◌+◌, ◌-◌, ◌<◌, ◌≤◌, IsTrue, true, length, min, take, is_ok, not, Some, IfOk, IfSome, OnErr};
ghost use Rattle.gw_outside.specs.Faults.{HasCause};
ghost use Rattle.gw_links.specs.Links.{IsAnswer, IsWithin, Moved, TookFront, gave, gives_lesser};
ghost use Rattle.gw_link_fakes.specs.Tallies.{fails};
ghost use Rattle.gw_link_fakes.specs.Tapes.{carried_of, new_tape, tape_received, tape_sent, told_of};

use crate::tally::Tally;
use gw_fakes::Calls;
use gw_links::{Got, Link};
use gw_outside::{Bytes, Failed};
use std::alloc::{AllocError, Global};
use std::marker::Model;

/// A link over bytes in memory, which keeps what it takes within a fixed room.
#[derive(Drop)]
pub struct MemTape {
    bytes: Bytes,
    at: usize,
    taken: Vec<u8>,
    room: usize,
    tally: Tally,
}

impl Model for MemTape {
    ghost use Rattle.std.specs.Prelude.{◌≤◌, length, take, drop, vec_capacity};
    ghost use Rattle.gw_link_fakes.specs.Tapes.{Tape};

    ghost Value = { Tape };

    ghost view = { λ t. record { given = take t.at t.bytes; left = drop t.at t.bytes; taken = t.taken.items; room = t.room; tally = t.tally } };

    ghost invariant = { λ t. (t.at ≤ length t.bytes) × (length t.taken.items ≤ t.room) × (t.room ≤ vec_capacity t.taken) };
}

impl MemTape {
    /// A tape that gives `bytes` and takes up to `room` bytes, and whose calls in `fail` fail.
    ///
    /// # Errors
    /// Want of memory for the room.
    pub fn new(alloc: Global, bytes: Bytes, room: usize, fail: Calls) -> Result<MemTape, AllocError>
        ensures { IfOk result (λ t. t ≡ new_tape bytes room fail) }
    {
        Ok(MemTape {
            bytes,
            at: 0,
            taken: Vec::with_capacity(alloc, room)?,
            room,
            tally: Tally::new(fail),
        })
    }

    /// A tape that gives `bytes` and takes up to `room` bytes, and never fails.
    ///
    /// # Errors
    /// Want of memory for the room.
    pub fn without_faults(alloc: Global, bytes: Bytes, room: usize) -> Result<MemTape, AllocError>
        ensures { IfOk result (λ t. t ≡ new_tape bytes room []) }
    {
        MemTape::new(alloc, bytes, room, Calls::from(Vec::new(alloc)))
    }

    /// The bytes that it has given.
    pub fn given(&self) -> &[u8]
        ensures value { result.now ≡ self.now.given }
    {
        let (given, _) = self.bytes.as_slice().split_at(self.at);
        given
    }

    /// The bytes that it has taken.
    pub fn taken(&self) -> &[u8]
        ensures value { result.now ≡ self.now.taken }
    {
        self.taken.as_slice()
    }
}

impl Link for MemTape {
    ghost told = { λ t. Some (told_of t) };

    ghost carried = { λ t. Some (carried_of t) };

    ghost eager = { true };

    ghost Place = { Unit {0} };

    ghost place = { λ t. tt };

    ghost faults = { λ t. t.tally.faults };

    fn recv(&mut self, into: &mut [u8], _patience: u64) -> Result<Got, Failed>
        requires { 0 < length into.old }
        ensures count { IfOk result (λ got. IsWithin got (length into.new)) }
        ensures moves { Moved (Some (told_of self.old)) (Some (told_of self.new)) (Some (carried_of self.old)) (Some (carried_of self.new)) (gave result into.new) [] }
        ensures answer { IfOk result (λ got. IsAnswer (told_of self.old) got) }
        ensures lesser { IfOk result (λ got. gives_lesser (told_of self.old) (length into.new) got) }
        ensures cause { HasCause self.old.tally.faults self.new.tally.faults result }

        // Exactly the calls that are to fail do.
        ensures fails { is_ok result ≡ not (fails self.old.tally) }
        ensures after { self.new ≡ tape_received (length into.old) self.old }
    {
        self.tally.meet()?;
        let (_, left) = self.bytes.as_slice().split_at(self.at);
        if left.is_empty() {
            return Ok(Got::End);
        }
        let count = left.len().min(into.len());
        let (next, _) = left.split_at(count);
        into[..count].copy_from_slice(next);
        self.at += count;
        Ok(Got::Bytes(count))
    }

    fn send(&mut self, bytes: &[u8]) -> Result<usize, Failed>
        ensures count { IfOk result (λ n. n ≡ min (length bytes.now) (self.old.room - length self.old.taken)) }
        ensures moves { IfOk result (λ n. Moved (Some (told_of self.old)) (Some (told_of self.new)) (Some (carried_of self.old)) (Some (carried_of self.new)) [] (take n bytes.now)) }
        ensures front { OnErr result (TookFront (Some (told_of self.old)) (Some (told_of self.new)) (Some (carried_of self.old)) (Some (carried_of self.new)) bytes.now) }
        ensures cause { HasCause self.old.tally.faults self.new.tally.faults result }

        // Exactly the calls that are to fail do, and they take nothing.
        ensures fails { is_ok result ≡ not (fails self.old.tally) }
        ensures after { self.new ≡ tape_sent bytes.now self.old }
    {
        self.tally.meet()?;
        let count = bytes.len().min(self.room - self.taken.len());
        let (front, _) = bytes.split_at(count);
        match self.taken.extend_from_slice(front) {
            Ok(()) => Ok(count),
            Err(_) => unreachable!(),
        }
    }
}

//! A guest: a tape whose front can be looked at.

ghost use Rattle.std.specs.Prelude.{◌≡◌, [], ◌<◌, ◌≤◌, false, true, not, length, min, take, is_ok, IsTrue, Some, IfOk, OnErr};
ghost use Rattle.gw_outside.specs.Faults.{HasCause};
ghost use Rattle.gw_links.specs.Links.{IsAnswer, IsWithin, Moved, TookFront, gave, gives_lesser};
ghost use Rattle.gw_link_fakes.specs.Tapes.{carried_of, new_tape, tape_received, tape_sent, told_of};
ghost use Rattle.gw_guest_fakes.specs.Guests.{faults_of, looked_at};

use gw_guests::Peek;
use gw_link_fakes::MemTape;
use gw_links::{Got, Link};
use gw_outside::{Bytes, Failed};
use std::alloc::{AllocError, Global};
use std::marker::Model;

/// A tape whose front can be looked at, or each look at which fails.
#[derive(Drop)]
pub struct MemGuest {
    /// All that the tape gives.
    bytes: Bytes,
    tape: MemTape,
    is_broken: bool,
    failed: u64,
}

impl Model for MemGuest {
    ghost use Rattle.std.specs.Prelude.{◌≡◌, ◌++◌};
    ghost use Rattle.gw_guest_fakes.specs.Guests.{Guest};

    ghost Value = { Guest };

    ghost view = { λ g. record { tape = g.tape; is_broken = g.is_broken; failed = g.failed } };

    ghost invariant = { λ g. g.bytes ≡ g.tape.given ++ g.tape.left };
}

/// Copies from the front of `from` to that of `into`, as far as both reach, and tells how many bytes.
fn copy_front(into: &mut [u8], from: &[u8]) -> usize
    ensures count { result ≡ min (length into.old) (length from.now) }
    ensures copied { take result into.new ≡ take result from.now }
{
    let n = into.len().min(from.len());
    into[..n].copy_from_slice(&from[..n]);
    n
}

impl MemGuest {
    /// A guest who gives `bytes` and takes up to `room` bytes, and each look at whom fails where `is_broken`.
    ///
    /// # Errors
    /// Want of memory for the bytes and the room.
    pub fn new(
        alloc: Global,
        bytes: &[u8],
        room: usize,
        is_broken: bool,
    ) -> Result<MemGuest, AllocError>
        ensures { IfOk result (λ g. g ≡ record { tape = new_tape bytes.now room []; is_broken = is_broken; failed = 0 }) }
    {
        let tape = MemTape::without_faults(alloc, Bytes::from_slice(alloc, bytes)?, room)?;
        Ok(MemGuest {
            bytes: Bytes::from_slice(alloc, bytes)?,
            tape,
            is_broken,
            failed: 0,
        })
    }

    /// The tape.
    pub fn tape(&self) -> &MemTape
        ensures { result.now ≡ self.now.tape }
    {
        &self.tape
    }
}

impl Link for MemGuest {
    ghost told = { λ g. Some (told_of g.tape) };

    ghost carried = { λ g. Some (carried_of g.tape) };

    ghost eager = { true };

    ghost Place = { Unit {0} };

    ghost place = { λ g. tt };

    ghost faults = { faults_of };

    fn recv(&mut self, into: &mut [u8], patience: u64) -> Result<Got, Failed>
        requires { 0 < length into.old }
        ensures count { IfOk result (λ got. IsWithin got (length into.new)) }
        ensures moves { Moved (Some (told_of self.old.tape)) (Some (told_of self.new.tape)) (Some (carried_of self.old.tape)) (Some (carried_of self.new.tape)) (gave result into.new) [] }
        ensures answer { IfOk result (λ got. IsAnswer (told_of self.old.tape) got) }
        ensures lesser { IfOk result (λ got. gives_lesser (told_of self.old.tape) (length into.new) got) }
        ensures cause { HasCause (faults_of self.old) (faults_of self.new) result }
        ensures after { self.new ≡ record self.old { tape = tape_received (length into.old) self.old.tape } }
    {
        self.tape.recv(into, patience)
    }

    fn send(&mut self, bytes: &[u8]) -> Result<usize, Failed>
        ensures count { IfOk result (λ n. n ≤ length bytes.now) }
        ensures moves { IfOk result (λ n. Moved (Some (told_of self.old.tape)) (Some (told_of self.new.tape)) (Some (carried_of self.old.tape)) (Some (carried_of self.new.tape)) [] (take n bytes.now)) }
        ensures front { OnErr result (TookFront (Some (told_of self.old.tape)) (Some (told_of self.new.tape)) (Some (carried_of self.old.tape)) (Some (carried_of self.new.tape)) bytes.now) }
        ensures some { IfOk result (λ n. 0 < length bytes.now → 0 < (told_of self.old.tape).room → 0 < n) }
        ensures cause { HasCause (faults_of self.old) (faults_of self.new) result }
        ensures after { self.new ≡ record self.old { tape = tape_sent bytes.now self.old.tape } }
    {
        self.tape.send(bytes)
    }
}

impl Peek for MemGuest {
    fn peek(&mut self, into: &mut [u8]) -> Result<usize, Failed>
        ensures count { IfOk result (λ n. n ≤ length into.new) }
        ensures front { IfOk result (λ n. take n into.new ≡ take (length into.new) self.old.tape.left) }
        ensures told { Some (told_of self.new.tape) ≡ Some (told_of self.old.tape) }
        ensures carried { Some (carried_of self.new.tape) ≡ Some (carried_of self.old.tape) }
        ensures cause { HasCause (faults_of self.old) (faults_of self.new) result }

        // Exactly a broken one fails.
        ensures fails { is_ok result ≡ not self.old.is_broken }
        ensures after { self.new ≡ looked_at self.old }
    {
        if self.is_broken {
            self.failed = self.failed.saturating_add(1);
            return Err(Failed);
        }
        let (_, left) = self.bytes.as_slice().split_at(self.tape.given().len());
        Ok(copy_front(into, left))
    }
}

//! Bytes that wait within the room of a session: 65,560 bytes, for which all memory is taken at once.

ghost use Rattle.std.specs.Prelude.{◌≡◌, [], ◌+◌, ◌≤◌, ◌++◌, length, min, take, drop, IfOk};

use crate::lane::Lane;
use std::alloc::{AllocError, Global};
use std::marker::Model;

/// The room of a session's input and of its output in bytes: four of the largest frames.
pub const SESSION_ROOM: usize = 65_560;

/// Bytes that wait, at most `SESSION_ROOM`. Contracts see them as a list, the earliest first.
#[derive(Drop)]
pub(crate) struct Held {
    lane: Lane,
}

impl Model for Held {
    ghost use Rattle.std.specs.Prelude.{ℕ, List, ◌≤◌, length, vec_capacity};
    ghost use Rattle.fixp_mux.specs.Holding.{waits_in};

    ghost Value = { List ℕ };

    ghost view = { λ h. waits_in h.lane };

    ghost invariant = { λ h. (length (waits_in h.lane) ≤ 65560) × (65560 ≤ vec_capacity h.lane.bytes) };
}

impl Held {
    /// Nothing, and room for `SESSION_ROOM` bytes.
    ///
    /// # Errors
    /// Want of memory.
    pub(crate) fn new(alloc: Global) -> Result<Held, AllocError>
        ensures { IfOk result (λ h. h ≡ []) }
    {
        Ok(Held {
            lane: Lane::new(alloc, SESSION_ROOM)?,
        })
    }

    /// How many bytes wait.
    pub(crate) fn len(&self) -> usize
        ensures value { result ≡ length self.now }
        ensures within { result ≤ SESSION_ROOM }
    {
        self.lane.len()
    }

    /// The bytes that wait.
    pub(crate) fn as_slice(&self) -> &[u8]
        ensures { result.now ≡ self.now }
    {
        self.lane.as_slice()
    }

    /// Lets the first `count` bytes go, which are at most all of them.
    pub(crate) fn drop_front(&mut self, count: usize)
        requires { count ≤ length self.old }
        ensures { self.new ≡ drop count self.old }
    {
        self.lane.drop_front(count);
    }

    /// Gives the earliest bytes into the front of `into`, as many as it takes, and answers how many.
    pub(crate) fn give(&mut self, into: &mut [u8]) -> usize
        ensures count { result ≡ min (length into.old) (length self.old) }
        ensures front { take result into.new ≡ take result self.old }
        ensures value { self.new ≡ drop result self.old }
    {
        self.lane.give(into)
    }

    /// Takes bytes behind those that wait.
    pub(crate) fn put(&mut self, bytes: &[u8])
        requires { length self.old + length bytes.now ≤ SESSION_ROOM }
        ensures { self.new ≡ self.old ++ bytes.now }
    {
        self.lane.put(bytes);
    }
}

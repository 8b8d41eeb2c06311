//! Bytes under way in one direction, within a fixed room.

ghost use Rattle.std.specs.Prelude.{◌≡◌, [], ◌+◌, ◌≤◌, ◌++◌, length, min, take, drop, IfOk, vec_len, vec_capacity};

use std::alloc::{AllocError, Global};

/// The bytes that are under way, in a row behind those that were given and are not overwritten yet.
#[derive(Drop)]
pub(crate) struct Lane {
    bytes: Vec<u8>,
    /// How many of the bytes were given.
    given: usize,
    ghost within: { given ≤ vec_len bytes },
}

impl Lane {
    ghost use Rattle.gw_link_fakes.specs.Lanes.{under_way};

    /// A lane with nothing under way. It takes memory for twice its room, so that bytes seldom move.
    ///
    /// # Errors
    /// Want of memory.
    pub(crate) fn new(alloc: Global, room: usize) -> Result<Lane, AllocError>
        ensures items { IfOk result (λ l. under_way l ≡ []) }
        ensures capacity { IfOk result (λ l. room ≤ vec_capacity l.bytes) }
    {
        Ok(Lane {
            bytes: Vec::with_capacity(alloc, room.saturating_mul(2))?,
            given: 0,
        })
    }

    /// How many bytes are under way.
    pub(crate) fn len(&self) -> usize
        ensures { result ≡ length (under_way self.now) }
    {
        self.bytes.len() - self.given
    }

    /// What is under way is lost.
    pub(crate) fn clear(&mut self)
        ensures items { under_way self.new ≡ [] }
        ensures capacity { vec_capacity self.new.bytes ≡ vec_capacity self.old.bytes }
    {
        self.given = 0;
        self.bytes.clear();
    }

    /// Gives the earliest bytes into the front of `into`, as many as it takes, and answers how many.
    pub(crate) fn give(&mut self, into: &mut [u8]) -> usize
        ensures count { result ≡ min (length into.old) (length (under_way self.old)) }
        ensures front { take result into.new ≡ take result (under_way self.old) }
        ensures rest { under_way self.new ≡ drop result (under_way self.old) }
        ensures capacity { vec_capacity self.new.bytes ≡ vec_capacity self.old.bytes }
    {
        let (_, under_way) = self.bytes.as_slice().split_at(self.given);
        let count = under_way.len().min(into.len());
        let (next, behind) = under_way.split_at(count);
        into[..count].copy_from_slice(next);
        if behind.is_empty() {
            self.clear();
        } else {
            self.given += count;
        }
        count
    }

    /// Makes room for so many bytes, over what was given if need be.
    fn make_room(&mut self, count: usize)
        requires room { length (under_way self.old) + count ≤ vec_capacity self.old.bytes }
        ensures items { under_way self.new ≡ under_way self.old }
        ensures capacity { vec_capacity self.new.bytes ≡ vec_capacity self.old.bytes }
        ensures room { vec_len self.new.bytes + count ≤ vec_capacity self.new.bytes }
    {
        if count <= self.bytes.capacity() - self.bytes.len() {
            return;
        }
        let len = self.len();
        self.bytes.copy_within(self.given.., 0);
        self.given = 0;
        self.bytes.truncate(len);
    }

    /// Takes bytes behind those that are under way.
    pub(crate) fn take(&mut self, bytes: &[u8])
        requires room { length (under_way self.old) + length bytes.now ≤ vec_capacity self.old.bytes }
        ensures items { under_way self.new ≡ under_way self.old ++ bytes.now }
        ensures capacity { vec_capacity self.old.bytes ≤ vec_capacity self.new.bytes }
    {
        self.make_room(bytes.len());
        if self.bytes.extend_from_slice(bytes).is_err() {
            unreachable!()
        }
    }
}

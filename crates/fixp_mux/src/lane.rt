//! Bytes in a row behind those that were given and are not overwritten yet.

ghost use Rattle.std.specs.Prelude.{◌≡◌, [], ◌+◌, ◌≤◌, ◌++◌, length, min, take, drop, IfOk, vec_len, vec_capacity};

use std::alloc::{AllocError, Global};

/// Bytes that wait, the earliest first.
#[derive(Drop)]
pub(crate) struct Lane {
    bytes: Vec<u8>,
    /// How many of the bytes were given.
    given: usize,
    ghost within: { given ≤ vec_len bytes },
}

impl Lane {
    ghost use Rattle.fixp_mux.specs.Holding.{waits_in};

    /// A lane in which nothing waits, with memory for `room` bytes.
    ///
    /// # Errors
    /// Want of memory.
    pub(crate) fn new(alloc: Global, room: usize) -> Result<Lane, AllocError>
        ensures items { IfOk result (λ l. waits_in l ≡ []) }
        ensures capacity { IfOk result (λ l. room ≤ vec_capacity l.bytes) }
    {
        Ok(Lane {
            bytes: Vec::with_capacity(alloc, room)?,
            given: 0,
        })
    }

    /// How many bytes wait.
    pub(crate) fn len(&self) -> usize
        ensures { result ≡ length (waits_in self.now) }
    {
        self.bytes.len() - self.given
    }

    /// The bytes that wait.
    pub(crate) fn as_slice(&self) -> &[u8]
        ensures { result.now ≡ waits_in self.now }
    {
        let (_, waits) = self.bytes.as_slice().split_at(self.given);
        waits
    }

    /// Lets the first `count` bytes go, which are at most all of them.
    pub(crate) fn drop_front(&mut self, count: usize)
        requires { count ≤ length (waits_in self.old) }
        ensures items { waits_in self.new ≡ drop count (waits_in self.old) }
        ensures capacity { vec_capacity self.new.bytes ≡ vec_capacity self.old.bytes }
    {
        if count == self.len() {
            self.given = 0;
            self.bytes.clear();
        } else {
            self.given += count;
        }
    }

    /// Gives the earliest bytes into the front of `into`, as many as it takes, and answers how many.
    pub(crate) fn give(&mut self, into: &mut [u8]) -> usize
        ensures count { result ≡ min (length into.old) (length (waits_in self.old)) }
        ensures front { take result into.new ≡ take result (waits_in self.old) }
        ensures items { waits_in self.new ≡ drop result (waits_in self.old) }
        ensures capacity { vec_capacity self.new.bytes ≡ vec_capacity self.old.bytes }
    {
        let waits = self.as_slice();
        let count = waits.len().min(into.len());
        let (next, _) = waits.split_at(count);
        into[..count].copy_from_slice(next);
        self.drop_front(count);
        count
    }

    /// Makes room for so many bytes, over what was given if need be.
    fn make_room(&mut self, count: usize)
        requires room { length (waits_in self.old) + count ≤ vec_capacity self.old.bytes }
        ensures items { waits_in self.new ≡ waits_in self.old }
        ensures capacity { vec_capacity self.new.bytes ≡ vec_capacity self.old.bytes }
        ensures room { vec_len self.new.bytes + count ≤ vec_capacity self.new.bytes }
    {
        if count <= self.bytes.capacity() - self.bytes.len() {
            return;
        }
        let len = self.len();
        self.bytes.copy_within(self.given.., 0);
        self.given = 0;
        self.bytes.truncate(len);
    }

    /// Takes bytes behind those that wait.
    pub(crate) fn put(&mut self, bytes: &[u8])
        requires room { length (waits_in self.old) + length bytes.now ≤ vec_capacity self.old.bytes }
        ensures items { waits_in self.new ≡ waits_in self.old ++ bytes.now }
        ensures capacity { vec_capacity self.old.bytes ≤ vec_capacity self.new.bytes }
    {
        self.make_room(bytes.len());
        if self.bytes.extend_from_slice(bytes).is_err() {
            unreachable!()
        }
    }
}

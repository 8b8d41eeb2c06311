//! The bytes that an end has written and its link has not taken yet, in memory that is reserved once.

ghost use Rattle.std.specs.Prelude.{◌≡◌, ◌+◌, ◌≤◌, [], ◌++◌, length, drop, vec_capacity, IfOk};

use std::alloc::{AllocError, Global};
use std::marker::Model;

/// How many bytes an end can hold unsent.
pub const CAPACITY: usize = 5_242_880;

/// Drops bytes from the front of a buffer, which keeps its memory.
fn drop_front(buffer: &mut Vec<u8>, count: usize)
    requires { count ≤ length buffer.old.items }
    ensures items { buffer.new.items ≡ drop count buffer.old.items }
    ensures capacity { vec_capacity buffer.new ≡ vec_capacity buffer.old }
{
    let left = buffer.len() - count;
    buffer.rotate_left(count);
    buffer.truncate(left);
}

/// A queue of bytes that can be seen as one slice.
#[derive(Drop)]
pub struct Output {
    buffer: Vec<u8>,
    start: usize,
}

impl Model for Output {
    ghost use Rattle.std.specs.Prelude.{◌≤◌, List, ℕ, length, drop, vec_capacity};

    ghost Value = { List ℕ };

    ghost view = { λ o. drop o.start o.buffer.items };

    ghost invariant = { λ o. (o.start ≤ length o.buffer.items) × (length o.buffer.items ≤ 5242880) × (5242880 ≤ vec_capacity o.buffer) };
}

impl Output {
    /// An empty queue with its memory reserved.
    pub fn new(alloc: Global) -> Result<Output, AllocError>
        ensures { IfOk result (λ o. o ≡ []) }
    {
        Ok(Output {
            buffer: Vec::with_capacity(alloc, CAPACITY)?,
            start: 0,
        })
    }

    /// The bytes in order.
    pub fn unsent(&self) -> &[u8]
        ensures { result.now ≡ self.now }
    {
        &self.buffer[self.start..]
    }

    /// Adds bytes at the end. The front that is gone is given up only where the room is needed.
    pub fn append(&mut self, bytes: &[u8])
        requires { length self.old + length bytes.now ≤ 5242880 }
        ensures { self.new ≡ self.old ++ bytes.now }
    {
        if CAPACITY - self.buffer.len() < bytes.len() {
            drop_front(&mut self.buffer, self.start);
            self.start = 0;
        }
        match self.buffer.extend_from_slice(bytes) {
            Ok(()) => {}
            Err(_) => unreachable!(),
        }
    }

    /// Takes bytes from the front.
    pub fn take_front(&mut self, count: usize)
        requires { count ≤ length self.old }
        ensures { self.new ≡ drop count self.old }
    {
        self.start += count;
        if self.start == self.buffer.len() {
            self.clear();
        }
    }

    /// Drops all bytes.
    pub fn clear(&mut self)
        ensures { self.new ≡ [] }
    {
        self.buffer.clear();
        self.start = 0;
    }
}

//! What is kept of the front of a line that is not read to its end. Its memory is taken once.

ghost use Rattle.std.specs.Prelude.{◌≡◌, ◌+◌, ◌≤◌, ◌<◌, ◌++◌, [], Some, None, IfOk, IsTrue, ◌↔◌, length, vec_capacity};
ghost use Rattle.gw_lines.specs.Kept.{kept_behind, ToldOf};

use crate::found::Found;
use std::alloc::{AllocError, Global};
use std::marker::Model;
use std::mem;

/// The most bytes that a line has before its line feed, with its carriage return: a line of INPUT that gives a payload, a line of OUT, and
/// a line of a message's text have fewer.
pub const LONGEST: usize = 65_536;

/// The front of a line, unless it is longer than a line may be.
#[derive(Drop)]
pub struct Front {
    bytes: Vec<u8>,
    is_over: bool,
}

impl Model for Front {
    ghost use Rattle.std.specs.Prelude.{ℕ, List, Option, Some, None, if◌then◌else◌, ◌≤◌, length};
    ghost use Rattle.std.specs.Vec.{vec_capacity};

    ghost Value = { Option (List ℕ) };

    ghost view = { λ f. if f.is_over then None else Some f.bytes.items };

    ghost invariant = { λ f. (65536 ≤ vec_capacity f.bytes) × (length f.bytes.items ≤ 65536) };
}

impl Front {
    /// The front of a line of which nothing was looked at.
    ///
    /// # Errors
    /// Want of memory.
    pub fn new(alloc: Global) -> Result<Front, AllocError>
        ensures { IfOk result (λ f. f ≡ Some []) }
    {
        Ok(Front {
            bytes: room(alloc)?,
            is_over: false,
        })
    }

    /// Whether nothing was looked at.
    pub fn is_empty(&self) -> bool
        ensures { IsTrue result ↔ (self.now ≡ Some []) }
    {
        !self.is_over && self.bytes.is_empty()
    }

    /// Has these bytes stand behind the others.
    pub fn add(&mut self, more: &[u8])
        ensures { self.new ≡ kept_behind self.old more.now }
    {
        if self.is_over {
            return;
        }
        if more.len() <= LONGEST - self.bytes.len() {
            fill(&mut self.bytes, more);
        } else {
            self.is_over = true;
        }
    }

    /// Gives the whole line, and has another begin: puts it in place of what stood in `line`, where it is not too long.
    pub fn end(&mut self, line: &mut Vec<u8>) -> Found
        requires { LONGEST ≤ vec_capacity line.old }
        ensures told { ToldOf self.old result line.new.items }
        ensures empty { self.new ≡ Some [] }
        ensures room { LONGEST ≤ vec_capacity line.new }
    {
        if self.is_over {
            self.is_over = false;
            self.bytes.clear();
            return Found::TooLong;
        }
        mem::swap(&mut self.bytes, line);
        self.bytes.clear();
        Found::Whole
    }
}

/// Room for a line.
pub(crate) fn room(alloc: Global) -> Result<Vec<u8>, AllocError>
    ensures empty { IfOk result (λ v. v.items ≡ []) }
    ensures room { IfOk result (λ v. LONGEST ≤ vec_capacity v) }
{
    Vec::with_capacity(alloc, LONGEST)
}

/// Adds bytes for which there is room.
fn fill(bytes: &mut Vec<u8>, more: &[u8])
    requires { length bytes.old.items + length more.now ≤ vec_capacity bytes.old }
    ensures items { bytes.new.items ≡ bytes.old.items ++ more.now }
    ensures room { vec_capacity bytes.old ≤ vec_capacity bytes.new }
{
    match bytes.extend_from_slice(more) {
        Ok(()) => {}
        Err(_) => unreachable!(),
    }
}

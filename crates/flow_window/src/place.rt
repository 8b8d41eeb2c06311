//! Room for one held message. Its memory is taken once, and stays with it when the message goes.

ghost use Rattle.std.specs.Prelude.{◌≡◌, ◌+◌, ◌≤◌, ◌++◌, Some, None, IfOk, is_some, not, length, option_map, unwrap_or, vec_capacity};

use std::alloc::{AllocError, Global};
use std::marker::Model;

/// The longest payload of an application message in bytes: its encoding type, and a message of 16,384 bytes.
const LONGEST_PAYLOAD: usize = 16_386;

/// Room for a payload, and the payload that it holds, if there is one.
#[derive(Drop)]
pub struct Place {
    is_taken: bool,
    bytes: Vec<u8>,
}

impl Model for Place {
    ghost use Rattle.std.specs.Prelude.{ℕ, List, Option, Some, None, if◌then◌else◌, ◌≤◌};
    ghost use Rattle.std.specs.Vec.{vec_capacity};

    ghost Value = { Option (List ℕ) };

    ghost view = { λ p. if p.is_taken then Some p.bytes.items else None };

    ghost invariant = { λ p. 16386 ≤ vec_capacity p.bytes };
}

impl Place {
    /// A free place, with room for the longest payload.
    ///
    /// # Errors
    /// Want of memory.
    pub fn new(alloc: Global) -> Result<Place, AllocError>
        ensures { IfOk result (λ p. p ≡ None) }
    {
        let bytes = Vec::with_capacity(alloc, LONGEST_PAYLOAD)?;
        Ok(Place {
            is_taken: false,
            bytes,
        })
    }

    /// Whether a payload is held here.
    pub fn is_taken(&self) -> bool
        ensures { result ≡ is_some self.now }
    {
        self.is_taken
    }

    /// The payload that is held here.
    pub fn payload(&self) -> Option<&[u8]>
        ensures { option_map (λ p. p.now) result ≡ self.now }
    {
        if self.is_taken {
            Some(&self.bytes)
        } else {
            None
        }
    }

    /// Holds the payload that these two parts spell, where none is held yet, and tells whether it is held only now.
    pub fn hold(&mut self, first: &[u8], second: &[u8]) -> bool
        requires { length first.now + length second.now ≤ 16386 }
        ensures holds { self.new ≡ Some (unwrap_or self.old (first.now ++ second.now)) }
        ensures fresh { result ≡ not (is_some self.old) }
    {
        if self.is_taken {
            return false;
        }
        self.bytes.clear();
        fill(&mut self.bytes, first);
        fill(&mut self.bytes, second);
        self.is_taken = true;
        true
    }

    /// Lets the payload go, and tells whether there was one.
    pub fn free(&mut self) -> bool
        ensures free { self.new ≡ None }
        ensures was { result ≡ is_some self.old }
    {
        let was_taken = self.is_taken;
        self.is_taken = false;
        was_taken
    }
}

/// Adds bytes for which there is room.
fn fill(bytes: &mut Vec<u8>, more: &[u8])
    requires { length bytes.old.items + length more.now ≤ vec_capacity bytes.old }
    ensures items { bytes.new.items ≡ bytes.old.items ++ more.now }
    ensures room { vec_capacity bytes.old ≤ vec_capacity bytes.new }
{
    match bytes.extend_from_slice(more) {
        Ok(()) => {}
        Err(_) => unreachable!(),
    }
}

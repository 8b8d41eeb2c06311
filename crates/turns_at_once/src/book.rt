//! A book in memory: whose each entry is.
ghost use Rattle.std.specs.Prelude.{◌≡◌, ◌+◌, ◌^◌, ◌<◌, ◌≢◌, true, false, [], ◌∷◌, ◌++◌, vec_len, IsTrue, IsFalse};

use gate_turn::Logged;
use std::alloc::Global;

/// A value that takes entries.
pub trait Writes: Logged {
    ghost use Rattle.turns_at_once.specs.Writing.{AddsEntry, StaysSound};

    /// Adds one entry of the sender, or says that it could not.
    fn write(&mut self, sender: u16) -> bool
        requires open { (Self.tells self.old).history.finished ≢ true }
        ensures wrote { IsTrue result → AddsEntry sender (Self.tells self.old).history (Self.tells self.new).history }
        ensures refused { IsFalse result → (Self.tells self.new).history ≡ (Self.tells self.old).history }
        ensures sound { StaysSound (Self.tells self.old) (Self.tells self.new) };
}

/// Who wrote each entry, in order.
#[derive(Drop)]
pub struct Book {
    writers: Vec<u16>,
    ghost few: { vec_len writers < 2 ^ 40 },
}

impl Logged for Book {
    ghost use Rattle.turns_at_once.specs.Told.{told_by};

    ghost tells = { told_by };

    fn length(&self) -> u64 {
        self.writers.len() as u64
    }

    fn marked(&self) -> bool {
        false
    }
}

impl Writes for Book {
    fn write(&mut self, sender: u16) -> bool {
        self.writers.len() + 1 < 1 << 40 && self.writers.push(sender).is_ok()
    }
}

impl Book {
    ghost use Rattle.turns_at_once.specs.Told.{told_by};

    /// An empty book.
    pub fn new(alloc: Global) -> Book
        ensures whole { (told_by result).broken ≢ true }
        ensures clean { (told_by result).refused ≡ [] }
    {
        Book {
            writers: Vec::new(alloc),
        }
    }

    /// Who wrote each entry, in order.
    pub fn writers(&self) -> &[u16] {
        self.writers.as_slice()
    }
}

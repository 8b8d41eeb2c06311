//! A journal with moments as a plain list, in memory alone: what it holds, takes and refuses.

ghost use Rattle.std.specs.Prelude.{◌≤◌, length};

use crate::noted::Noted;
use std::alloc::{AllocError, Global};

/// The bytes of a journal without records: the header and the closed byte.
const EMPTY: u64 = 17;

/// The records of a journal in short, the moment that the next one is given, the bytes that all take, and their limit.
#[derive(Drop)]
pub struct Plain {
    pub known: Vec<Noted>,
    pub moment: u64,
    pub bytes: u64,
    pub limit: u64,
}

impl Plain {
    /// A journal without records.
    pub fn new(alloc: Global) -> Plain {
        Plain {
            known: Vec::new(alloc),
            moment: 0,
            bytes: EMPTY,
            limit: 0,
        }
    }

    /// An equal one of its own.
    pub fn copy(&self, alloc: Global) -> Result<Plain, AllocError> {
        Ok(Plain {
            known: self.known.to_vec(alloc)?,
            moment: self.moment,
            bytes: self.bytes,
            limit: self.limit,
        })
    }

    /// How many records it has.
    pub fn len(&self) -> u64 {
        self.known.len() as u64
    }

    /// How many of these there are before the first that passes the limit behind the ones before it.
    pub fn fitting(&self, notes: &[Noted]) -> usize
        ensures within { result ≤ length notes.now }
    {
        let mut bytes = self.bytes;
        for at in 0..notes.len() {
            bytes = bytes.saturating_add(notes[at].size());
            if bytes > self.limit && !notes[at].is_control() {
                return at;
            }
        }
        notes.len()
    }

    /// Adds these behind the others, whatever the limit.
    pub fn add(&mut self, notes: &[Noted]) -> Result<(), AllocError> {
        for noted in notes {
            self.bytes = self.bytes.saturating_add(noted.size());
        }
        self.known.extend_from_slice(notes)
    }

    /// Raises the moment to this one, unless it is behind it.
    pub fn at(&mut self, time: u64) {
        self.moment = self.moment.max(time);
    }

    /// What an opening makes of it: its moment is the greatest of its records again, and its limit is this one.
    pub fn reopen(&mut self, limit: u64) {
        self.limit = limit;
        self.moment = 0;
        for noted in self.known.as_slice() {
            self.moment = self.moment.max(noted.moment);
        }
    }
}

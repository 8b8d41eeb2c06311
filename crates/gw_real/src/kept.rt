//! The last bytes that a source gave, for whoever says what was wrong with them.

use std::alloc::Global;

/// The last bytes that were given.
#[derive(Drop)]
pub struct Kept {
    bytes: Vec<u8>,
    most: usize,
    given: u64,
}

impl Kept {
    /// Keeps the last `most` bytes at least, as far as there is memory for them.
    pub fn new(alloc: Global, most: usize) -> Kept {
        Kept {
            bytes: Vec::new(alloc),
            most,
            given: 0,
        }
    }

    /// Adds bytes that were given.
    pub fn add(&mut self, piece: &[u8]) {
        if piece.len() >= self.most {
            self.bytes.clear();
        } else if self.bytes.len() > self.most.saturating_mul(2) {
            self.keep_last();
        }
        if self.bytes.extend_from_slice(piece).is_err() {
            self.bytes.clear();
        }
        self.given = self.given.saturating_add(piece.len() as u64);
    }

    // Drops all but the last `most` bytes, which are copied as a whole where more than twice as many are there.
    fn keep_last(&mut self) {
        let past = self.bytes.len().saturating_sub(self.most);
        let (front, last) = self.bytes.as_mut_slice().split_at_mut(past);
        if last.len() <= front.len() {
            let (place, _) = front.split_at_mut(last.len());
            place.copy_from_slice(last);
        }
        self.bytes.truncate(self.most);
    }

    /// The bytes.
    pub fn bytes(&self) -> &[u8] {
        self.bytes.as_slice()
    }

    /// The kept bytes from a place on, counted from 0 in all that was given; none where that place is not kept.
    pub fn from_place(&self, place: u64) -> &[u8] {
        let bytes = self.bytes.as_slice();
        let start = self.given.saturating_sub(bytes.len() as u64);
        match place.checked_sub(start) {
            Some(skipped) if skipped <= bytes.len() as u64 => bytes.split_at(skipped as usize).1,
            _ => &[],
        }
    }
}

//! Frames by name.

use crate::{bytes, halves};
use std::alloc::{AllocError, Global};

/// A table of frames: on each line a name, a blank and the frame's bytes in hexadecimal.
#[derive(Clone, Copy)]
pub struct Named<'a> {
    table: &'a str,
}

impl<'a> Named<'a> {
    /// The frames of a table.
    pub fn of(table: &'a str) -> Named<'a> {
        Named { table }
    }

    /// The digits behind a name; the name itself where it is none of the table.
    fn digits_of<'b>(self, name: &'b str) -> &'b str
    where
        'a: 'b,
    {
        for line in self.table.lines() {
            let (found, digits) = halves(line);
            if found == name {
                return digits;
            }
        }
        name
    }

    /// The bytes of the frame of this name, or those that a word spells; none where it is neither.
    pub fn bytes(self, alloc: Global, word: &str) -> Result<Vec<u8>, AllocError> {
        bytes(alloc, self.digits_of(word))
    }
}

//! What a look at a file gives.

ghost use Rattle.std.specs.Prelude.{◌≡◌, None};

use crate::front::read_some;
use gw_outside::{Failed, Source};
use std::fs::File;
use std::io;

/// What stands in a file from a place on.
#[derive(Drop)]
pub struct SeenFile {
    file: File,
    /// The place of the next byte.
    at: u64,
    reason: Option<io::Error>,
    faults: u64,
}

impl SeenFile {
    /// What stands in a file from this place on.
    pub(crate) fn new(file: File, at: u64) -> SeenFile
        ensures faults { result.faults ≡ 0 }
    {
        SeenFile {
            file,
            at,
            reason: None,
            faults: 0,
        }
    }

    /// How many reads failed.
    pub(crate) fn faults(&self) -> u64
        ensures { result ≡ self.now.faults }
    {
        self.faults
    }

    /// Why the last read that failed did, if one has.
    pub(crate) fn reason(&self) -> Option<io::Error> {
        self.reason
    }
}

impl Source for SeenFile {
    ghost left = { λ s. None };

    ghost faults = { λ s. s.faults };

    fn pull(&mut self, into: &mut [u8]) -> Result<usize, Failed> {
        match read_some(&self.file, self.at, into) {
            Ok(count) => {
                self.at = self.at.saturating_add(count as u64);
                Ok(count)
            }
            Err(error) => {
                self.reason = Some(error);
                self.faults = self.faults.saturating_add(1);
                Err(Failed)
            }
        }
    }
}

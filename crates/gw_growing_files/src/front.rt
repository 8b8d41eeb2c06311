//! The bytes in front of a place of a file, by which a look sees whether they are what stood there before.

ghost use Rattle.std.specs.Prelude.{◌≤◌, length, IfOk};

use std::fs::File;
use std::io::{self, ErrorKind};
use std::os::unix::fs::FileExt;

/// How many bytes in front of a place are looked at.
const SIZE: usize = 256;

/// What stood in front of a place: the last bytes, or all where there are fewer.
#[derive(Clone, Copy)]
pub(crate) struct Front {
    /// The place, in bytes from 0.
    at: u64,
    /// The bytes, zeros behind them.
    bytes: [u8; SIZE],
}

/// Reads from a place on, as many bytes as there are, again where a signal came between.
pub(crate) fn read_some(file: &File, at: u64, into: &mut [u8]) -> io::Result<usize>
    ensures count { IfOk result (λ n. n ≤ length into.new) }
{
    let mut count = 0;
    for _ in 0..u64::MAX {
        if count >= into.len() {
            break;
        }
        match file.read_at(&mut into[count..], at.saturating_add(count as u64)) {
            Ok(0) => break,
            Ok(more) => count += more,
            Err(error) if error.kind() == ErrorKind::Interrupted => {}
            Err(error) => return Err(error),
        }
    }
    Ok(count)
}

impl Front {
    /// What stands in front of the first byte of a file.
    pub(crate) fn empty() -> Front {
        Front {
            at: 0,
            bytes: [0; SIZE],
        }
    }

    /// The place.
    pub(crate) fn at(&self) -> u64 {
        self.at
    }

    /// What stands in front of a place of a file; `None` where the file ends before that.
    pub(crate) fn of(file: &File, at: u64) -> io::Result<Option<Front>> {
        let count = at.min(SIZE as u64);
        let mut bytes = [0; SIZE];
        let read = read_some(file, at - count, &mut bytes[..count as usize])?;
        if read as u64 == count {
            Ok(Some(Front { at, bytes }))
        } else {
            Ok(None)
        }
    }

    /// Whether it stands in a file still.
    pub(crate) fn stands(&self, file: &File) -> io::Result<bool> {
        match Front::of(file, self.at)? {
            Some(now) => Ok(now.bytes == self.bytes),
            None => Ok(false),
        }
    }
}

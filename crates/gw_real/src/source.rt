//! Files that are read.

ghost use Rattle.std.specs.Prelude.{◌≡◌, None};
ghost use Rattle.std.specs.Io.{ReadsAtMost};
ghost use Rattle.std.specs.Io.KnownBytes.{ReadConsumes};
ghost use Rattle.gw_real.specs.Told.{told_by};

use crate::kept::Kept;
use gw_outside::{Failed, Source};
use std::alloc::Global;
use std::fs::{self, Files};
use std::io::{self, ErrorKind, Read};

/// A file that is read. It is opened at the first read, and keeps the last bytes that it gave.
#[derive(Drop)]
pub struct FileSource<'a, R, F> {
    rt: &'a R,
    path: &'a str,
    file: Option<F>,
    kept: Kept,
    reason: Option<io::Error>,
    faults: u64,
}

/// Reads, and again where a signal came between.
fn read_some<F: Read>(file: &mut F, into: &mut [u8]) -> io::Result<usize>
    ensures bound { ReadsAtMost result into.new }
    ensures bytes { ReadConsumes (F.remaining file.old) (F.remaining file.new) result into.new }
{
    for _ in 0..u64::MAX {
        match file.read(into) {
            Err(error) if error.kind() == ErrorKind::Interrupted => {}
            outcome => return outcome,
        }
    }
    Err(io::Error::from(ErrorKind::Interrupted))
}

impl<'a, R, F> FileSource<'a, R, F> {
    /// The file at a path, of which the last `kept` bytes at least are kept.
    pub fn new(rt: &'a R, alloc: Global, path: &'a str, kept: usize) -> FileSource<'a, R, F>
        ensures closed { result.file ≡ None }
        ensures faults { result.faults ≡ 0 }
    {
        FileSource {
            rt,
            path,
            file: None,
            kept: Kept::new(alloc, kept),
            reason: None,
            faults: 0,
        }
    }

    /// Why the last call that failed did, if one has.
    pub fn reason(&self) -> Option<io::Error> {
        self.reason
    }

    /// The last bytes that it gave.
    pub fn kept(&self) -> &Kept {
        &self.kept
    }
}

impl<'a, R: Files<File = F>, F: Read + Drop> FileSource<'a, R, F> {
    /// Opens the file where it is not open, and reads from it.
    fn read(&mut self, into: &mut [u8]) -> io::Result<usize>
        ensures bound { ReadsAtMost result into.new }
        ensures bytes { ReadConsumes (told_by F.remaining self.old.file) (told_by F.remaining self.new.file) result into.new }
        ensures faults { self.new.faults ≡ self.old.faults }
    {
        let mut file = match self.file.take() {
            Some(file) => file,
            None => fs::open(self.rt, self.path)?,
        };
        let outcome = read_some(&mut file, into);
        self.file = Some(file);
        outcome
    }
}

impl<R: Files<File = F>, F: Read + Drop> Source for FileSource<'_, R, F> {
    ghost use Rattle.gw_real.specs.Told.{told_by};

    ghost left = { λ s. told_by F.remaining s.file };

    ghost faults = { λ s. s.faults };

    fn pull(&mut self, into: &mut [u8]) -> Result<usize, Failed> {
        match self.read(into) {
            Ok(count) => {
                self.kept.add(&into[..count]);
                Ok(count)
            }
            Err(error) => {
                self.reason = Some(error);
                self.faults = self.faults.saturating_add(1);
                Err(Failed)
            }
        }
    }
}

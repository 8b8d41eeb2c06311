//! A file that others write, looked at time and again.

ghost use Rattle.std.specs.Prelude.{◌≡◌, ◌≤◌, false, None};
ghost use Rattle.gw_outside.specs.Faults.{HasRisen};

use crate::front::Front;
use crate::seen::SeenFile;
use gw_growing::Growing;
use gw_outside::Failed;
use std::fs::{self, File, Files};
use std::time::{Clock, Duration};
use std::{io, thread};

/// How long it waits before it looks again at the place of the last look, in milliseconds.
const PAUSE: u64 = 50;

/// The file at a path, opened at each look: a file that came in the place of another is seen as one that changed. A look sees whether the file ends
/// before its place, and whether the last bytes in front of the place of the look before stand there still.
#[derive(Drop)]
pub struct GrowingFile<'a, R> {
    rt: &'a R,
    path: &'a str,
    /// What stood in front of the place of the last look.
    front: Front,
    is_changed: bool,
    reason: Option<io::Error>,
    faults: u64,
}

/// The file at a path, and what stands in front of a place of it; `None` where what stood in front of another place stands there no more, or the file
/// ends before this one.
fn seen_at<R: Files<File = File>>(
    rt: &R,
    path: &str,
    before: &Front,
    at: u64,
) -> io::Result<Option<(File, Front)>> {
    let file = fs::open(rt, path)?;
    if !before.stands(&file)? {
        return Ok(None);
    }
    match Front::of(&file, at)? {
        Some(front) => Ok(Some((file, front))),
        None => Ok(None),
    }
}

impl<'a, R> GrowingFile<'a, R> {
    /// The file at a path.
    pub fn new(rt: &'a R, path: &'a str) -> GrowingFile<'a, R>
        ensures faults { result.faults ≡ 0 }
        ensures unchanged { result.is_changed ≡ false }
    {
        GrowingFile {
            rt,
            path,
            front: Front::empty(),
            is_changed: false,
            reason: None,
            faults: 0,
        }
    }

    /// Why the last call that failed did, if one has.
    pub fn reason(&self) -> Option<io::Error> {
        self.reason
    }

    /// Keeps why a call failed, and counts it.
    fn failed(&mut self, error: io::Error) -> Failed
        ensures risen { HasRisen self.old.faults self.new.faults }
        ensures grown { self.old.faults ≤ self.new.faults }
        ensures same { self.new.is_changed ≡ self.old.is_changed }
    {
        self.reason = Some(error);
        self.faults = self.faults.saturating_add(1);
        Failed
    }
}

impl<R: Clock> GrowingFile<'_, R> {
    /// Waits where the last look was at this place.
    fn wait(&self, at: u64) {
        if at != 0 && at == self.front.at() {
            thread::sleep(self.rt, Duration::from_millis(PAUSE));
        }
    }
}

impl<R: Clock + Files<File = File>> Growing for GrowingFile<'_, R> {
    ghost use Rattle.gw_growing_files.specs.Untold.{tells_none};

    type Seen = SeenFile;

    ghost told = { λ f. None };

    ghost has_changed = { λ f. f.is_changed };

    ghost faults = { λ f. f.faults };

    ghost limited = { λ f content is. absurd (tells_none content is) };

    fn look(&mut self, at: u64) -> Result<Option<SeenFile>, Failed> {
        self.wait(at);
        match seen_at(self.rt, self.path, &self.front, at) {
            Ok(Some((file, front))) => {
                self.front = front;
                Ok(Some(SeenFile::new(file, at)))
            }
            Ok(None) => {
                self.is_changed = true;
                Ok(None)
            }
            Err(error) => Err(self.failed(error)),
        }
    }

    fn back(&mut self, seen: SeenFile) {
        self.faults = self.faults.saturating_add(seen.faults());
        if let Some(error) = seen.reason() {
            self.reason = Some(error);
        }
    }
}

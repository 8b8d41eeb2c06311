//! A source whose reading is watched.

ghost use Rattle.std.specs.Prelude.{◌≡◌};

use crate::ear::{Ear, Heard};
use gw_outside::{Failed, Source};
use std::time::Clock;

/// How long a source may be read before that is told, in milliseconds.
const PATIENCE: u64 = 1_000;

/// How many bytes may be read before that is told, since what is read is looked through afterwards.
const MUCH: usize = 1 << 24;

/// A source of which an ear is told where it is long in being read: for more than a second, or where it is so long that it
/// will be. All that is promised of it is what the source inside promises.
pub struct WatchedSource<'e, R, S, E> {
    inner: S,
    rt: &'e R,
    ear: &'e E,
    /// The moment before the first read, in milliseconds.
    start: Option<u64>,
    /// How many bytes came.
    count: usize,
    is_told: bool,
}

/// The moment now, in milliseconds from some start.
fn moment<R: Clock>(rt: &R) -> u64 {
    match rt.monotonic() {
        Ok(moment) => moment.as_millis().min(u64::MAX as u128) as u64,
        Err(_) => 0,
    }
}

impl<'e, R, S, E> WatchedSource<'e, R, S, E> {
    /// This source, told to this ear.
    pub fn new(rt: &'e R, inner: S, ear: &'e E) -> WatchedSource<'e, R, S, E>
        ensures inner { result.inner ≡ inner }
    {
        WatchedSource {
            inner,
            rt,
            ear,
            start: None,
            count: 0,
            is_told: false,
        }
    }

    /// The source inside.
    pub fn inner(&self) -> &S {
        &self.inner
    }

    /// The source inside, out of its watch.
    pub fn into_inner(self) -> S
        ensures inner { result ≡ self.entry.inner }
    {
        let WatchedSource {
            inner,
            rt: _,
            ear: _,
            start: _,
            count: _,
            is_told: _,
        } = self;
        inner
    }
}

/// Whether so many bytes, whose reading took so long, are worth a word.
fn is_long(took: u64, count: usize) -> bool {
    took > PATIENCE || count > MUCH
}

impl<R: Clock, S: Source, E: Ear> WatchedSource<'_, R, S, E> {
    /// Starts its clock where it does not go yet: the first read counts too, as of a pipe that nobody writes to.
    fn start(&mut self)
        ensures inner { self.new.inner ≡ self.old.inner }
    {
        if self.start.is_none() {
            self.start = Some(moment(self.rt));
        }
    }

    /// Tells where the source is long in being read, once.
    fn look(&mut self, count: usize)
        ensures inner { self.new.inner ≡ self.old.inner }
    {
        let now = moment(self.rt);
        let start = self.start.unwrap_or(now);
        self.count = self.count.saturating_add(count);
        if !self.is_told && is_long(now.saturating_sub(start), self.count) {
            self.is_told = true;
            self.ear.hear(Heard::Reads);
        }
    }
}

impl<R: Clock, S: Source, E: Ear> Source for WatchedSource<'_, R, S, E> {
    ghost left = { λ w. S.left w.inner };

    ghost faults = { λ w. S.faults w.inner };

    fn pull(&mut self, into: &mut [u8]) -> Result<usize, Failed> {
        self.start();
        let got = self.inner.pull(into);
        if let Ok(count) = got {
            self.look(count);
        }
        got
    }
}

//! A sink whose lines are watched.

ghost use Rattle.std.specs.Prelude.{◌≡◌};

use crate::ear::{Ear, Heard};
use gw_appended::Appended;
use gw_outside::{Failed, Sink};

/// How much of a line is kept.
const FRONT: usize = 64;

/// The front of the line that is under way.
#[derive(Drop)]
struct Front {
    bytes: [u8; FRONT],
    count: usize,
}

impl Front {
    /// Takes a byte of the line where there is room.
    fn add(&mut self, byte: u8) {
        if self.count < FRONT {
            self.bytes[self.count] = byte;
            self.count += 1;
        }
    }

    /// Tells the line, and begins a new one.
    fn end<E: Ear>(&mut self, ear: &E) {
        let (line, _) = self.bytes.split_at(self.count.min(FRONT));
        ear.hear(Heard::Line(line));
        self.count = 0;
    }
}

/// A sink of which an ear is told that it is begun, which its first push of nothing does, and from then on each line as soon as it is taken. All that is
/// promised of it is what the sink inside promises.
pub struct WatchedSink<'e, K, E> {
    inner: K,
    ear: &'e E,
    front: Front,
    has_begun: bool,
}

impl<'e, K, E> WatchedSink<'e, K, E> {
    /// This sink, told to this ear.
    pub fn new(inner: K, ear: &'e E) -> WatchedSink<'e, K, E>
        ensures inner { result.inner ≡ inner }
    {
        WatchedSink {
            inner,
            ear,
            front: Front {
                bytes: [0; FRONT],
                count: 0,
            },
            has_begun: false,
        }
    }

    /// The sink inside.
    pub fn inner(&self) -> &K {
        &self.inner
    }

    /// The sink inside, out of its watch.
    pub fn into_inner(self) -> K
        ensures inner { result ≡ self.entry.inner }
    {
        let WatchedSink {
            inner,
            ear: _,
            front: _,
            has_begun: _,
        } = self;
        inner
    }
}

/// Follows on over bytes of lines.
fn follow<E: Ear>(front: &mut Front, bytes: &[u8], ear: &E) {
    for &byte in bytes {
        if byte == b'\n' {
            front.end(ear);
        } else {
            front.add(byte);
        }
    }
}

impl<K: Sink, E: Ear> Sink for WatchedSink<'_, K, E> {
    ghost taken = { λ w. K.taken w.inner };

    ghost faults = { λ w. K.faults w.inner };

    fn push(&mut self, bytes: &[u8]) -> Result<usize, Failed> {
        let taken = self.inner.push(bytes);
        if let Ok(count) = taken {
            if self.has_begun {
                let (lines, _) = bytes.split_at(count);
                follow(&mut self.front, lines, self.ear);
            } else if bytes.is_empty() {
                self.has_begun = true;
                self.ear.hear(Heard::Begun);
            }
        }
        taken
    }
}

impl<K: Appended, E: Ear> Appended for WatchedSink<'_, K, E> {
    ghost keeps = { K.keeps };

    fn length(&mut self) -> Result<Option<u64>, Failed> {
        self.inner.length()
    }

    fn read_at(&mut self, at: u64, into: &mut [u8]) -> Result<usize, Failed> {
        self.inner.read_at(at, into)
    }

    fn cut(&mut self, size: u64) -> Result<(), Failed> {
        self.inner.cut(size)
    }
}

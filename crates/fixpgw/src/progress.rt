//! How far a rehearsal is, in a line on standard error that is written anew in its place, where that is a terminal.

use gw_rehearse::Watch;
use std::time::{Clock, Instant};

/// How long the line stands before it is written anew, and how long a rehearsal runs before there is one, in seconds.
const APART: u64 = 1;

/// The line on how far a rehearsal is.
#[derive(Drop)]
pub struct Progress<'a, R> {
    rt: &'a R,
    /// When the line was written last, or the rehearsal began; none where nothing is to be written, or there is no clock.
    written: Option<Instant>,
    /// How many steps are done, of how many.
    done: u64,
    of: u64,
    /// How many rounds were run.
    rounds: u64,
    /// Whether a line stands there.
    stands: bool,
}

impl<'a, R: Clock + Eprint> Progress<'a, R> {
    /// The line of a rehearsal that begins now; there is none where it is not to be shown.
    pub fn new(rt: &'a R, is_shown: bool) -> Progress<'a, R> {
        Progress {
            rt,
            written: if is_shown {
                Instant::now(rt).ok()
            } else {
                None
            },
            done: 0,
            of: 0,
            rounds: 0,
            stands: false,
        }
    }

    /// Writes the line, where a second has gone by.
    fn tell(&mut self) {
        let Some(written) = self.written else {
            return;
        };
        let Ok(now) = Instant::now(self.rt) else {
            return;
        };
        if now.duration_since(written).as_secs() < APART {
            return;
        }
        let (done, of, rounds) = (self.done, self.of, self.rounds);
        let _ = eprint!(self.rt; "\rfixpgw: {done} of {of} steps, {rounds} rounds\u{1b}[K");
        self.written = Some(now);
        self.stands = true;
    }
}

impl<R: Clock + Eprint> Watch for Progress<'_, R> {
    fn at(&mut self, done: u64, of: u64) {
        self.done = done;
        self.of = of;
        self.tell();
    }

    fn round(&mut self) {
        self.rounds = self.rounds.saturating_add(1);
        self.tell();
    }

    /// The line is taken away, so that what follows stands alone.
    fn over(&mut self) {
        if self.stands {
            let _ = eprint!(self.rt; "\r\u{1b}[K");
        }
    }
}

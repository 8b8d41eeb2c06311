//! A dialer that is watched, and that pauses behind connections which came to nothing.

ghost use Rattle.std.specs.Prelude.{◌≡◌, ◌≤◌, false};

use crate::ear::{Ear, Heard};
use crate::link::{HasPeer, WatchedLink};
use gw_links::{Dialer, Link, Next};
use gw_outside::Failed;
use std::alloc::Global;
use std::sync::atomic::{AtomicBool, Ordering};
use std::thread;
use std::time::{Clock, Duration};

/// The first pause, in milliseconds.
const FIRST: u64 = 100;

/// The longest pause, in milliseconds.
const LONGEST: u64 = 5_000;

/// How long it pauses before it looks again whether it is to stop, in milliseconds.
const PIECE: u64 = 100;

/// How a dialer comes to its next connection.
#[derive(Clone, Copy)]
pub enum Approach {
    /// It makes the connection.
    Connects,
    /// As before: there is nothing to tell.
    AsBefore,
}

/// A dialer that can say how it comes to its next connection.
pub trait Approaches: Dialer {
    /// Makes ready for the next connection, and says how it will come. What fails here fails again at `next`.
    fn approach(&mut self) -> Approach
        ensures told { Self.told self.new ≡ Self.told self.old }
        ensures lent { Self.lent self.new ≡ Self.lent self.old }
        ensures faults { Self.faults self.new ≡ Self.faults self.old };
}

/// Whether a dialer pauses behind a connection on which the session was not established.
#[derive(Clone, Copy)]
pub enum Pauses {
    /// Not at all.
    Never,
    /// 100 ms behind the first, twice as long behind each further one, and no longer than five seconds; not at all behind
    /// one on which the session was established.
    Longer,
}

/// A dialer whose connections an ear follows. All that is promised of it is what the dialer inside promises.
pub struct WatchedDialer<'e, R, N, E> {
    inner: N,
    rt: &'e R,
    alloc: Global,
    ear: &'e E,
    pauses: Pauses,
    /// The pause before the next connection, in milliseconds.
    pause: u64,
}

impl<'e, R, N, E> WatchedDialer<'e, R, N, E> {
    /// This dialer, told to this ear.
    pub fn new(
        rt: &'e R,
        alloc: Global,
        inner: N,
        ear: &'e E,
        pauses: Pauses,
    ) -> WatchedDialer<'e, R, N, E>
        ensures inner { result.inner ≡ inner }
    {
        WatchedDialer {
            inner,
            rt,
            alloc,
            ear,
            pauses,
            pause: 0,
        }
    }

    /// The dialer inside.
    pub fn inner(&self) -> &N {
        &self.inner
    }

    /// The dialer inside, out of its watch.
    pub fn into_inner(self) -> N
        ensures inner { result ≡ self.entry.inner }
    {
        let WatchedDialer {
            inner,
            rt: _,
            alloc: _,
            ear: _,
            pauses: _,
            pause: _,
        } = self;
        inner
    }
}

/// Pauses for so many milliseconds, and answers whether it is to stop, which is looked at before each piece.
fn is_stopped_in<R: Clock>(rt: &R, pause: u64, stop: &AtomicBool) -> bool {
    let mut left = pause;
    for _ in 0..=LONGEST {
        if stop.load(Ordering::SeqCst) {
            return true;
        }
        if left == 0 {
            return false;
        }
        let piece = left.min(PIECE);
        thread::sleep(rt, Duration::from_millis(piece));
        left = left.saturating_sub(piece);
    }
    false
}

/// The pause behind a connection on which the session was established, or not, where the last pause was this.
fn pause_behind(pauses: Pauses, was_established: bool, last: u64) -> u64 {
    match pauses {
        Pauses::Longer if !was_established => { last.saturating_mul(2).max(FIRST).min(LONGEST) }
        Pauses::Longer | Pauses::Never => 0,
    }
}

/// Tells an ear how the next connection will come.
fn tell_approach<E: Ear>(ear: &E, approach: Approach) {
    match approach {
        Approach::Connects => ear.hear(Heard::Connects),
        Approach::AsBefore => {}
    }
}

impl<'e, R: Clock, N: Approaches, E: Ear> Dialer for WatchedDialer<'e, R, N, E>
where
    N::Link: HasPeer,
{
    type Link = WatchedLink<'e, N::Link, E>;

    type Waker = N::Waker;

    ghost told = { λ d. N.told d.inner };

    ghost lent = { λ d. N.lent d.inner };

    ghost faults = { λ d. N.faults d.inner };

    fn next(&mut self, stop: &AtomicBool) -> Result<Next<WatchedLink<'e, N::Link, E>>, Failed> {
        if is_stopped_in(self.rt, self.pause, stop) {
            return Ok(Next::Stopped);
        }
        let approach = self.inner.approach();
        tell_approach(self.ear, approach);
        match self.inner.next(stop) {
            Ok(Next::Link(link)) => {
                self.ear.hear(Heard::Connected { peer: link.peer() });
                Ok(Next::Link(WatchedLink::new(self.alloc, link, self.ear)))
            }
            Ok(Next::NoneLeft) => Ok(Next::NoneLeft),
            Ok(Next::Stopped) => Ok(Next::Stopped),
            Err(failed) => {
                self.ear.hear(Heard::InVain);
                Err(failed)
            }
        }
    }

    fn waker(&self) -> N::Waker {
        self.inner.waker()
    }

    fn back(&mut self, link: WatchedLink<'e, N::Link, E>) {
        self.pause = pause_behind(self.pauses, link.was_established(), self.pause);
        self.inner.back(link.into_inner());
        self.ear.hear(Heard::Over);
    }
}

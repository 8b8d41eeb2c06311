//! A link that is watched.

ghost use Rattle.std.specs.Prelude.{◌≡◌};

use crate::ear::Ear;
use crate::follow::{Follower, Way};
use gw_links::{Got, Link};
use gw_outside::Failed;
use std::alloc::Global;
use std::net::SocketAddr;

/// What may know who is at its other end.
pub trait HasPeer {
    /// The address of the other end, where it is known.
    fn peer(&self) -> Option<SocketAddr>;
}

/// A link whose bytes an ear follows, both ways. No byte is changed, kept back or copied but for the session's messages, and
/// all that is promised of it is what the link inside promises.
pub struct WatchedLink<'e, L, E> {
    inner: L,
    ear: &'e E,
    came: Follower,
    went: Follower,
}

impl<'e, L, E> WatchedLink<'e, L, E> {
    /// A new connection over this link, told to this ear.
    pub fn new(alloc: Global, inner: L, ear: &'e E) -> WatchedLink<'e, L, E>
        ensures inner { result.inner ≡ inner }
    {
        WatchedLink {
            inner,
            ear,
            came: Follower::new(alloc, Way::In),
            went: Follower::new(alloc, Way::Out),
        }
    }

    /// Whether the session was established on it.
    pub fn was_established(&self) -> bool {
        self.came.is_established() || self.went.is_established()
    }

    /// The link inside.
    pub fn into_inner(self) -> L
        ensures inner { result ≡ self.entry.inner }
    {
        let WatchedLink {
            inner,
            ear: _,
            came: _,
            went: _,
        } = self;
        inner
    }
}

impl<L: Link, E: Ear> Link for WatchedLink<'_, L, E> {
    ghost told = { λ w. L.told w.inner };

    ghost carried = { λ w. L.carried w.inner };

    ghost eager = { L.eager };

    ghost Place = { L.Place };

    ghost place = { λ w. L.place w.inner };

    ghost faults = { λ w. L.faults w.inner };

    fn recv(&mut self, into: &mut [u8], patience: u64) -> Result<Got, Failed> {
        let got = self.inner.recv(into, patience);
        if let Ok(Got::Bytes(count)) = got {
            let (came, _) = into.split_at(count);
            self.came.follow(came, self.ear);
        }
        got
    }

    fn send(&mut self, bytes: &[u8]) -> Result<usize, Failed> {
        let taken = self.inner.send(bytes);
        if let Ok(count) = taken {
            let (went, _) = bytes.split_at(count);
            self.went.follow(went, self.ear);
        }
        taken
    }
}

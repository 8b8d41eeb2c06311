//! A dialer and a disk that tell a meeting of their calls, and else are those that they are made of.

ghost use Rattle.std.specs.Prelude.{◌≡◌, ◌+◌, ◌<◌, ◌≤◌, ◌^◌, false, true, length, IsTrue, is_some, IsErr, IfOk, IfSome, OnOk, OnErr};

use crate::serve_beside::meeting::Meeting;
use gw_links::{Dialer, Next};
use gw_outside::{Disk, Failed};
use std::sync::atomic::AtomicBool;

/// A dialer whose calls of `next` come to the meeting.
#[derive(Drop)]
pub struct MetDialer<'a, N> {
    dialer: N,
    meeting: &'a Meeting,
}

impl<'a, N: Dialer> MetDialer<'a, N> {
    /// The dialer, with the meeting.
    pub fn new(dialer: N, meeting: &'a Meeting) -> MetDialer<'a, N>
        ensures { result.dialer ≡ dialer }
    {
        MetDialer { dialer, meeting }
    }
}

impl<N: Dialer> Dialer for MetDialer<'_, N> {
    type Link = N::Link;

    type Waker = N::Waker;

    ghost told = { λ d. N.told d.dialer };

    ghost lent = { λ d. N.lent d.dialer };

    ghost faults = { λ d. N.faults d.dialer };

    fn next(&mut self, stop: &AtomicBool) -> Result<Next<N::Link>, Failed> {
        self.meeting.dial();
        self.dialer.next(stop)
    }

    fn waker(&self) -> N::Waker {
        self.dialer.waker()
    }

    fn back(&mut self, link: N::Link) {
        self.dialer.back(link);
    }
}

/// A disk whose writes come to the meeting, if there is one.
#[derive(Drop)]
pub struct MetDisk<'a, D> {
    disk: D,
    meeting: Option<&'a Meeting>,
}

impl<'a, D: Disk> MetDisk<'a, D> {
    /// The disk, with the meeting.
    pub fn new(disk: D, meeting: Option<&'a Meeting>) -> MetDisk<'a, D> {
        MetDisk { disk, meeting }
    }
}

impl<D: Disk> Disk for MetDisk<'_, D> {
    ghost told = { λ d. D.told d.disk };

    ghost may_leave = { λ d. D.may_leave d.disk };

    ghost faults = { λ d. D.faults d.disk };

    ghost told_is_left = { λ d content is. D.told_is_left d.disk content is };

    ghost untold = { λ d content is left. D.untold d.disk content is left };

    ghost limited = { λ d content left. D.limited d.disk content left };

    fn length(&mut self) -> Result<u64, Failed> {
        self.disk.length()
    }

    fn read_at(&mut self, at: u64, into: &mut [u8]) -> Result<usize, Failed> {
        self.disk.read_at(at, into)
    }

    fn write_at(&mut self, at: u64, bytes: &[u8]) -> Result<(), Failed> {
        if let Some(meeting) = self.meeting {
            meeting.send();
        }
        self.disk.write_at(at, bytes)
    }

    fn sync(&mut self) -> Result<(), Failed> {
        self.disk.sync()
    }
}

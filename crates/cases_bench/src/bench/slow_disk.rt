//! A disk whose syncs take their time, and which else is the one that it is made of.

ghost use Rattle.std.specs.Prelude.{◌≡◌, ◌+◌, ◌<◌, ◌≤◌, ◌^◌, false, true, length, IsTrue, is_some, IsErr, IfOk, IfSome, OnOk, OnErr};

use gw_outside::{Disk, Failed};
use std::thread::sleep;
use std::time::{Clock, Duration};

/// How long a sync sleeps first, in milliseconds.
const PAUSE: u64 = 1;

/// A disk each of whose syncs sleeps first.
#[derive(Drop)]
pub struct SlowDisk<'a, D, R> {
    disk: D,
    clock: &'a R,
}

impl<'a, D: Disk, R: Clock> SlowDisk<'a, D, R> {
    /// The disk, with the clock by which its syncs sleep.
    pub fn new(disk: D, clock: &'a R) -> SlowDisk<'a, D, R> {
        SlowDisk { disk, clock }
    }
}

impl<D: Disk, R: Clock> Disk for SlowDisk<'_, D, R> {
    ghost told = { λ d. D.told d.disk };

    ghost may_leave = { λ d. D.may_leave d.disk };

    ghost faults = { λ d. D.faults d.disk };

    ghost told_is_left = { λ d content is. D.told_is_left d.disk content is };

    ghost untold = { λ d content is left. D.untold d.disk content is left };

    ghost limited = { λ d content left. D.limited d.disk content left };

    fn length(&mut self) -> Result<u64, Failed> {
        self.disk.length()
    }

    fn read_at(&mut self, at: u64, into: &mut [u8]) -> Result<usize, Failed> {
        self.disk.read_at(at, into)
    }

    fn write_at(&mut self, at: u64, bytes: &[u8]) -> Result<(), Failed> {
        self.disk.write_at(at, bytes)
    }

    fn sync(&mut self) -> Result<(), Failed> {
        sleep(self.clock, Duration::from_millis(PAUSE));
        self.disk.sync()
    }
}

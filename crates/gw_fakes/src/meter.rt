//! Counts the calls of one device in memory, and says which of them fail.

ghost use Rattle.std.specs.Prelude.{◌≡◌, None, Some, is_ok, not, min, ◌+◌, ◌-◌, ◌^◌, ◌≤◌};
ghost use Rattle.gw_outside.specs.Faults.{HasCause};
ghost use Rattle.gw_fakes.specs.InMemory.{fails_next, one_more};

use crate::calls::Calls;
use gw_outside::Failed;

/// The calls made and failed so far, and those that are to fail.
#[derive(Drop)]
pub(crate) struct Meter {
    /// The calls that fail, counted from 1.
    pub(crate) fail: Calls,
    /// The calls made so far.
    pub(crate) calls: u64,
    /// The calls that have failed.
    pub(crate) faults: u64,
    /// How many calls still pass, or `None` where nothing ends them.
    pub(crate) fuse: Option<u64>,
}

impl Meter {
    ghost use Rattle.gw_fakes.specs.Disks.{counted, failed, is_blown, met, refuses_call};

    /// No call was made yet, and none ends them.
    pub(crate) fn new(fail: Calls) -> Meter
        ensures fresh { result ≡ record { fail = fail; calls = 0; faults = 0; fuse = None } }
    {
        Meter {
            fail,
            calls: 0,
            faults: 0,
            fuse: None,
        }
    }

    /// Whether no call passes any more.
    pub(crate) fn is_blown(&self) -> bool
        ensures value { result ≡ is_blown self.now.fuse }
    {
        match self.fuse {
            Some(left) => left == 0,
            None => false,
        }
    }

    /// Counts a call, and says whether it is one of those that are to fail.
    pub(crate) fn count(&mut self) -> bool
        ensures value { result ≡ fails_next self.old.fail self.old.calls }
        ensures after { self.new ≡ counted self.old }
    {
        self.calls = self.calls.saturating_add(1);
        self.fuse = match self.fuse {
            Some(left) => Some(left.saturating_sub(1)),
            None => None,
        };
        self.fail.contains(self.calls)
    }

    /// Counts a fault.
    pub(crate) fn fault(&mut self) -> Failed
        ensures after { self.new ≡ record self.old { faults = one_more self.old.faults } }
        ensures grown { self.old.faults ≤ self.new.faults }
    {
        self.faults = self.faults.saturating_add(1);
        Failed
    }

    /// Counts a call that only looks or that changes nothing where it fails.
    pub(crate) fn meet(&mut self) -> Result<(), Failed>
        ensures fails { is_ok result ≡ not (refuses_call self.old) }
        ensures after { self.new ≡ met self.old }
        ensures cause { HasCause self.old.faults self.new.faults result }
    {
        let blown = self.is_blown();
        let fails = self.count();
        if blown || fails {
            return Err(self.fault());
        }
        Ok(())
    }
}

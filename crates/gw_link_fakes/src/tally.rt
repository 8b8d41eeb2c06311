//! Counts the calls of one device in memory, and says which of them fail.

ghost use Rattle.std.specs.Prelude.{◌≡◌, is_ok, not};
ghost use Rattle.gw_outside.specs.Faults.{HasCause};

use gw_fakes::Calls;
use gw_outside::Failed;

/// The calls made and failed so far, and those that are to fail.
#[derive(Drop)]
pub(crate) struct Tally {
    /// The calls that fail, counted from 1.
    pub(crate) fail: Calls,
    /// The calls made so far.
    pub(crate) calls: u64,
    /// The calls that have failed.
    pub(crate) faults: u64,
}

impl Tally {
    ghost use Rattle.gw_link_fakes.specs.Tallies.{fails, met, new_tally};

    /// No call was made yet.
    pub(crate) fn new(fail: Calls) -> Tally
        ensures { result ≡ new_tally fail }
    {
        Tally {
            fail,
            calls: 0,
            faults: 0,
        }
    }

    /// Counts a call, which fails where it is to.
    pub(crate) fn meet(&mut self) -> Result<(), Failed>
        ensures fails { is_ok result ≡ not (fails self.old) }
        ensures after { self.new ≡ met self.old }
        ensures cause { HasCause self.old.faults self.new.faults result }
    {
        self.calls = self.calls.saturating_add(1);
        if self.fail.contains(self.calls) {
            self.faults = self.faults.saturating_add(1);
            return Err(Failed);
        }
        Ok(())
    }
}

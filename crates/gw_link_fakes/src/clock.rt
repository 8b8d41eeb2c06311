//! A clock in memory: it stands until it is set on.

ghost use Rattle.std.specs.Prelude.{◌≡◌, ◌+◌, ◌-◌, ◌^◌, Some, min};

use gw_links::Clock;
use std::marker::Model;

/// The greatest moment, in milliseconds: 2^44 - 1.
const LAST: u64 = (1 << 44) - 1;

/// A clock that stands.
#[derive(Drop)]
pub struct MemClock {
    moment: u64,
}

impl Model for MemClock {
    ghost use Rattle.std.specs.Prelude.{ℕ, ◌^◌, ◌<◌};

    ghost Value = { ℕ };

    ghost view = { λ c. c.moment };

    ghost invariant = { λ c. c.moment < 2 ^ 44 };
}

impl MemClock {
    /// A clock that stands at `start` milliseconds, at 2^44 - 1 at most.
    pub fn new(start: u64) -> MemClock
        ensures { result ≡ min start (2 ^ 44 - 1) }
    {
        MemClock {
            moment: start.min(LAST),
        }
    }

    /// Sets the clock on by `by` milliseconds, to 2^44 - 1 at most.
    pub fn advance(&mut self, by: u64)
        ensures { self.new ≡ min (self.old + by) (2 ^ 44 - 1) }
    {
        self.moment = self.moment.saturating_add(by).min(LAST);
    }
}

impl Clock for MemClock {
    ghost told = { λ c. Some c };

    ghost last = { λ c. c };

    fn now(&mut self) -> u64 {
        self.moment
    }
}

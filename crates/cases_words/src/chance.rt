//! Numbers that look drawn, and are the same in each run: a xorshift over 64 bits.

ghost use Rattle.std.specs.Prelude.{◌<◌};

/// What the numbers are drawn from.
#[derive(Clone, Copy)]
pub struct Chance {
    state: u64,
}

impl Chance {
    /// The numbers of a seed.
    pub fn of(seed: u64) -> Chance {
        Chance {
            state: seed.wrapping_mul(0x9E37_79B9_7F4A_7C15) | 1,
        }
    }

    /// The next number below `limit`, which is 0 where that is 0.
    pub fn below(&mut self, limit: u64) -> u64
        ensures { 0 < limit → result < limit }
    {
        self.state ^= self.state << 13;
        self.state ^= self.state >> 7;
        self.state ^= self.state << 17;
        (self.state >> 11) % limit.max(1)
    }

    /// Whether it happens, once in so many times.
    pub fn once_in(&mut self, times: u64) -> bool {
        self.below(times) == 0
    }
}

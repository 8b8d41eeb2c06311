//! The calls at which a device in memory is to fail.

use std::marker::Model;

/// The calls of one device in memory that fail, counted from 1.
#[derive(Drop)]
pub struct Calls {
    numbers: Vec<u64>,
}

impl Model for Calls {
    ghost use Rattle.std.specs.Prelude.{ℕ, List};

    ghost Value = { List ℕ };

    ghost view = { λ c. c.numbers.items };
}

impl Calls {
    ghost use Rattle.std.specs.Prelude.{◌≡◌, ◌==◌};
    ghost use Rattle.std.specs.List.{list_any};

    /// Whether the call of this number fails.
    pub fn contains(&self, call: u64) -> bool
        ensures value { result ≡ list_any (λ number. number == call) self.now }
    {
        self.numbers.contains(&call)
    }
}

impl From<Vec<u64>> for Calls {
    ghost use Rattle.std.specs.Prelude.{◌≡◌};

    ghost from_gives = { λ v c. c ≡ v.items };

    fn from(numbers: Vec<u64>) -> Calls {
        Calls { numbers }
    }
}

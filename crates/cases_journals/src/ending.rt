//! How a sequence ends that does not go to its end.

ghost use Rattle.cases_journals.specs.declared.ending.Ending.TheVariants as ending;

use std::alloc::{AllocError, AllocFailed};

/// What the journal gave that the list does not.
#[derive(Clone, Copy, Debug)]
pub enum Difference {
    Opening,
    Size,
    Answer,
    Record,
    Broken,
}

/// Why a sequence went no further.
#[derive(Clone, Copy)]
pub enum Ending {
    Memory,
    Differs(Difference),
}

impl From<AllocError> for Ending {
    ghost use Rattle.std.specs.Prelude.{◌≡◌};

    ghost from_gives = { λ _ e. e ≡ ending.Memory };

    fn from(_: AllocError) -> Ending {
        Ending::Memory
    }
}

impl<T: Drop> From<AllocFailed<T>> for Ending {
    ghost use Rattle.std.specs.Prelude.{◌≡◌};

    ghost from_gives = { λ _ e. e ≡ ending.Memory };

    fn from(_: AllocFailed<T>) -> Ending {
        Ending::Memory
    }
}

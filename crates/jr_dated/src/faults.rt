//! Why a record was not read again.

ghost use Rattle.jr_dated.specs.declared.faults.FetchFault.TheVariants as fetch;

use gw_outside::Failed;
use std::alloc::{AllocError, AllocFailed};

/// Why a record was not read.
#[derive(Clone, Copy, Debug)]
pub enum FetchFault {
    /// A call of the disk has failed since the opening.
    Broken,
    /// There is not enough memory.
    Memory,
    /// The journal's disk failed.
    Fault,
    /// The disk gave other bytes than the record of this index, from 0 on, was written with.
    Changed { at: u64 },
}

impl From<AllocError> for FetchFault {
    ghost use Rattle.std.specs.Prelude.{◌≡◌};

    ghost from_gives = { λ _ fault. fault ≡ fetch.Memory };

    fn from(_: AllocError) -> FetchFault {
        FetchFault::Memory
    }
}

impl<T: Drop> From<AllocFailed<T>> for FetchFault {
    ghost use Rattle.std.specs.Prelude.{◌≡◌};

    ghost from_gives = { λ _ fault. fault ≡ fetch.Memory };

    fn from(_: AllocFailed<T>) -> FetchFault {
        FetchFault::Memory
    }
}

impl From<Failed> for FetchFault {
    ghost use Rattle.std.specs.Prelude.{◌≡◌};

    ghost from_gives = { λ _ fault. fault ≡ fetch.Fault };

    fn from(_: Failed) -> FetchFault {
        FetchFault::Fault
    }
}

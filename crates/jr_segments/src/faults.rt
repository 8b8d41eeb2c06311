//! Why nothing was added to a journal.

ghost use Rattle.jr_segments.specs.declared.faults.AddFault.TheVariants as add;

use gw_outside::Failed;
use std::alloc::AllocError;

/// Why records were not added.
#[derive(Clone, Copy)]
pub enum AddFault {
    Memory,
    /// A call of the disk failed.
    Fault,
}

impl From<AllocError> for AddFault {
    ghost use Rattle.std.specs.Prelude.{◌≡◌};

    ghost from_gives = { λ _ fault. fault ≡ add.Memory };

    fn from(_: AllocError) -> AddFault {
        AddFault::Memory
    }
}

impl From<Failed> for AddFault {
    ghost use Rattle.std.specs.Prelude.{◌≡◌};

    ghost from_gives = { λ _ fault. fault ≡ add.Fault };

    fn from(_: Failed) -> AddFault {
        AddFault::Fault
    }
}

//! Why a journal was not moved.

ghost use Rattle.jr_log.specs.declared.faults.LayFault.TheVariants as lay_fault;

use gw_outside::Failed;
use std::alloc::AllocError;

/// Why a journal of format 1 was not moved to a disk as one of format 2.
#[derive(Clone, Copy, Debug)]
pub enum MigrateFault {
    /// There is not enough memory.
    Memory,
    /// The old journal's disk failed.
    OldFault,
    /// The old disk's first 16 bytes are not the header of format 1.
    NotFormatted,
    /// No record and no end of the records stands at this byte of the old disk.
    Damaged { at: u64 },
    /// The new journal's disk failed.
    NewFault,
    /// The new disk has 16 bytes or more, and its first is not 0.
    NotFresh,
    /// The records would take more than 2^33 bytes; so many they are, and so many bytes they would take.
    Full { entries: u64, bytes: u64 },
}

/// Why the bytes of a journal were not written.
#[derive(Clone, Copy)]
pub enum LayFault {
    Memory,
    /// A call of the disk failed.
    Disk,
}

impl From<AllocError> for LayFault {
    ghost use Rattle.std.specs.Prelude.{◌≡◌};

    ghost from_gives = { λ _ fault. fault ≡ lay_fault.Memory };

    fn from(_: AllocError) -> LayFault {
        LayFault::Memory
    }
}

impl From<Failed> for LayFault {
    ghost use Rattle.std.specs.Prelude.{◌≡◌};

    ghost from_gives = { λ _ fault. fault ≡ lay_fault.Disk };

    fn from(_: Failed) -> LayFault {
        LayFault::Disk
    }
}

//! Why a call on a journal did not do what it was asked for.

ghost use Rattle.jr_record.specs.declared.faults.AppendFault.TheVariants as append;
ghost use Rattle.jr_record.specs.declared.faults.OpenFault.TheVariants as open_fault;
ghost use Rattle.jr_record.specs.declared.faults.FormatFault.TheVariants as format_fault;

use gw_outside::Failed;
use std::alloc::{AllocError, AllocFailed};

/// Why nothing was appended.
#[derive(Clone, Copy, Debug, PartialEq, Eq)]
pub enum AppendFault {
    /// A call of the disk has failed since the opening.
    Broken,
    /// The record would pass the limit of bytes; the journal has so many.
    Full { bytes: u64 },
    /// There is not enough memory.
    Memory,
    /// A call of the disk failed: whether the record is there shows when the journal is opened again.
    Fault,
}

/// Why a journal was not opened.
#[derive(Clone, Copy, Debug, PartialEq, Eq)]
pub enum OpenFault {
    /// There is not enough memory.
    Memory,
    /// The journal's disk failed.
    Fault,
    /// The first 16 bytes are not the header.
    NotFormatted,
    /// No record and no end of the records stands at this place.
    Damaged { at: u64 },
}

/// Why a disk was not formatted.
#[derive(Clone, Copy, Debug)]
pub enum FormatFault {
    /// The disk begins as a journal does.
    Already,
    /// A call of the disk failed: its first 17 bytes may hold anything.
    Fault,
}

impl From<AllocError> for AppendFault {
    ghost use Rattle.std.specs.Prelude.{◌≡◌};

    ghost from_gives = { λ _ fault. fault ≡ append.Memory };

    fn from(_: AllocError) -> AppendFault {
        AppendFault::Memory
    }
}

impl<T: Drop> From<AllocFailed<T>> for AppendFault {
    ghost use Rattle.std.specs.Prelude.{◌≡◌};

    ghost from_gives = { λ _ fault. fault ≡ append.Memory };

    fn from(_: AllocFailed<T>) -> AppendFault {
        AppendFault::Memory
    }
}

impl From<Failed> for AppendFault {
    ghost use Rattle.std.specs.Prelude.{◌≡◌};

    ghost from_gives = { λ _ fault. fault ≡ append.Fault };

    fn from(_: Failed) -> AppendFault {
        AppendFault::Fault
    }
}

impl From<AllocError> for OpenFault {
    ghost use Rattle.std.specs.Prelude.{◌≡◌};

    ghost from_gives = { λ _ fault. fault ≡ open_fault.Memory };

    fn from(_: AllocError) -> OpenFault {
        OpenFault::Memory
    }
}

impl<T: Drop> From<AllocFailed<T>> for OpenFault {
    ghost use Rattle.std.specs.Prelude.{◌≡◌};

    ghost from_gives = { λ _ fault. fault ≡ open_fault.Memory };

    fn from(_: AllocFailed<T>) -> OpenFault {
        OpenFault::Memory
    }
}

impl From<Failed> for OpenFault {
    ghost use Rattle.std.specs.Prelude.{◌≡◌};

    ghost from_gives = { λ _ fault. fault ≡ open_fault.Fault };

    fn from(_: Failed) -> OpenFault {
        OpenFault::Fault
    }
}

impl From<Failed> for FormatFault {
    ghost use Rattle.std.specs.Prelude.{◌≡◌};

    ghost from_gives = { λ _ fault. fault ≡ format_fault.Fault };

    fn from(_: Failed) -> FormatFault {
        FormatFault::Fault
    }
}

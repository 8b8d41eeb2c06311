//! Why the end of a file was not read.

ghost use Rattle.std.specs.Prelude.{◌≡◌};
ghost use Rattle.conn_tail.specs.declared.fault.TailFault.TheVariants.{Device, Memory};

use gw_outside::Failed;
use std::alloc::AllocError;

/// Why the end of a file was not read.
#[derive(Clone, Copy, Debug)]
pub enum TailFault {
    /// The device failed.
    Device,
    /// The file ended before its length.
    Short,
    /// There is not enough memory.
    Memory,
}

impl From<Failed> for TailFault {
    ghost from_gives = { λ _ e. e ≡ Device };

    fn from(_e: Failed) -> TailFault {
        TailFault::Device
    }
}

impl From<AllocError> for TailFault {
    ghost from_gives = { λ _ e. e ≡ Memory };

    fn from(_e: AllocError) -> TailFault {
        TailFault::Memory
    }
}

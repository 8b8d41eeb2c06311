//! Why a text has no plans.

ghost use Rattle.std.specs.Prelude.{◌≡◌};
ghost use Rattle.plan_text.specs.declared.fault.PlanFault.TheVariants.{Memory};

use std::alloc::{AllocError, AllocFailed};

/// Why a text has no plans.
#[derive(Clone, Copy)]
pub enum PlanFault {
    /// The line of this number, from 1 on, is the first that gives no payload to a sender.
    Line { line: u64 },
    /// There is not enough memory.
    Memory,
}

impl From<AllocError> for PlanFault {
    ghost from_gives = { λ _ e. e ≡ Memory };

    fn from(_e: AllocError) -> PlanFault {
        PlanFault::Memory
    }
}

impl<T: Drop> From<AllocFailed<T>> for PlanFault {
    ghost from_gives = { λ _ e. e ≡ Memory };

    fn from(_e: AllocFailed<T>) -> PlanFault {
        PlanFault::Memory
    }
}

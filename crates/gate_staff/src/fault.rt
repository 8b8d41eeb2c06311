//! Why those who send end before they sent all.
ghost use Rattle.std.specs.Prelude.{◌≡◌};
ghost use Rattle.gate_staff.specs.Faults.{submit_fault, finish_fault};

use jr_boxes::{CloseFault, SubmitFault};

/// Why those who send ended before they sent all. That the outbox is closed is no fault: it has all that it is to have.
#[derive(Clone, Copy)]
pub enum StaffFault {
    /// A call of the outbox's disk failed, now or since its opening.
    Journal,
    /// The outbox is at a limit for the message that comes next: it has so many messages, and so many bytes.
    Full { entries: u64, bytes: u64 },
    /// There is not enough memory.
    Memory,
}

/// What the refusal of a message is.
pub fn refused_submit(fault: SubmitFault) -> Option<StaffFault>
    ensures { result ≡ submit_fault fault }
{
    match fault {
        SubmitFault::Broken | SubmitFault::Fault => Some(StaffFault::Journal),
        SubmitFault::Closed => None,
        SubmitFault::Full { entries, bytes } => Some(StaffFault::Full { entries, bytes }),
        SubmitFault::Memory => Some(StaffFault::Memory),
    }
}

/// What the refusal of the Finish is.
pub(crate) fn refused_finish(fault: CloseFault) -> Option<StaffFault>
    ensures { result ≡ finish_fault fault }
{
    match fault {
        CloseFault::Broken | CloseFault::Fault => Some(StaffFault::Journal),
        CloseFault::Closed => None,
        CloseFault::Memory => Some(StaffFault::Memory),
    }
}

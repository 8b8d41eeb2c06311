//! What a fault of the journal below is to the box.

ghost use Rattle.std.specs.Prelude.{◌≡◌};
ghost use Rattle.jr_boxes.specs.Faults.{submit_fault, close_fault};
ghost use Rattle.jr_kept.specs.Faults.{opening_fault};
ghost use Rattle.jr_kept.specs.Adding.{entering_fault, applying_fault};

use jr_boxes::{BoxFault, CloseFault, SubmitFault};
use jr_dated::FetchFault;
use jr_record::AppendFault;

/// Why a box is not opened on a journal of which a record was not read. A record that has changed is one that the box excludes.
pub fn not_opened(fault: FetchFault) -> BoxFault
    ensures value { result ≡ opening_fault fault }
{
    match fault {
        FetchFault::Memory => BoxFault::Memory,
        FetchFault::Broken | FetchFault::Fault => BoxFault::Fault,
        FetchFault::Changed { at } => BoxFault::Wrong { at },
    }
}

/// What an append that was refused answers to a sender of an outbox with so many entries.
pub fn not_accepted(fault: AppendFault, entries: u64) -> SubmitFault
    ensures value { result ≡ submit_fault fault entries }
{
    match fault {
        AppendFault::Broken => SubmitFault::Broken,
        AppendFault::Full { bytes } => SubmitFault::Full { entries, bytes },
        AppendFault::Memory => SubmitFault::Memory,
        AppendFault::Fault => SubmitFault::Fault,
    }
}

/// What an append of the Finish that was refused answers. The Finish is exempt from the limit of bytes.
pub fn not_closed(fault: AppendFault) -> CloseFault
    ensures value { result ≡ close_fault fault }
{
    match fault {
        AppendFault::Broken => CloseFault::Broken,
        AppendFault::Full { .. } | AppendFault::Memory => CloseFault::Memory,
        AppendFault::Fault => CloseFault::Fault,
    }
}

/// Why a batch was not added.
#[derive(Clone, Copy)]
pub enum AddFault {
    Memory,
    /// A call of the disk failed.
    Fault,
}

/// What a batch that was not added answers to a sender of an outbox.
pub fn not_entered(fault: AddFault) -> SubmitFault
    ensures value { result ≡ entering_fault fault }
{
    match fault {
        AddFault::Memory => SubmitFault::Memory,
        AddFault::Fault => SubmitFault::Fault,
    }
}

/// What a batch that was not added answers to who applied it.
pub fn not_applied(fault: AddFault) -> AppendFault
    ensures value { result ≡ applying_fault fault }
{
    match fault {
        AddFault::Memory => AppendFault::Memory,
        AddFault::Fault => AppendFault::Fault,
    }
}

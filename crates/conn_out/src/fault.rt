//! Why OUT was not gone on with.

ghost use Rattle.std.specs.Prelude.{◌≡◌, ◌⊎◌, ℕ};
ghost use Rattle.conn_tail.specs.declared.fault.TailFault.TheVariants as tail;
ghost use Rattle.jr_dated.specs.declared.faults.FetchFault.TheVariants as fetch;
ghost use Rattle.conn_out.specs.declared.fault.OutFault.TheVariants as out;

use conn_tail::TailFault;
use jr_dated::FetchFault;

/// Why OUT was not gone on with.
#[derive(Clone, Copy)]
pub enum OutFault {
    /// OUT failed.
    Output,
    /// OUT ended before its length.
    Short,
    /// A call of the journal's disk failed, now or since its opening.
    Journal,
    /// The journal's disk gave no record where this one, from 0 on, was written.
    Changed { at: u64 },
    /// There is not enough memory.
    Memory,
}

/// Why the end of OUT was not found.
pub(crate) fn no_tail(fault: TailFault) -> OutFault
    ensures output { (result ≡ out.Output) → fault ≡ tail.Device }
    ensures short { (result ≡ out.Short) → fault ≡ tail.Short }
    ensures journal { result ≡ out.Journal → ⊥ }
    ensures changed { (at : ℕ) → result ≡ out.Changed at → ⊥ }
{
    match fault {
        TailFault::Device => OutFault::Output,
        TailFault::Short => OutFault::Short,
        TailFault::Memory => OutFault::Memory,
    }
}

/// Why a record was not read.
pub(crate) fn no_record(fault: FetchFault) -> OutFault
    ensures journal { result ≡ out.Journal → (fault ≡ fetch.Fault) ⊎ (fault ≡ fetch.Broken) }
    ensures output { result ≡ out.Output → ⊥ }
    ensures short { result ≡ out.Short → ⊥ }
    ensures changed { (at : ℕ) → result ≡ out.Changed at → fault ≡ fetch.Changed at }
{
    match fault {
        FetchFault::Memory => OutFault::Memory,
        FetchFault::Broken | FetchFault::Fault => OutFault::Journal,
        FetchFault::Changed { at } => OutFault::Changed { at },
    }
}

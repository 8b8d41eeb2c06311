//! Judging the records of a journal as those of a box.

ghost use Rattle.std.specs.Prelude.{◌≡◌, ◌⊎◌, ℕ, false, List, Err, OnOk, IsErrOf};
ghost use Rattle.std.specs.Option.{ForSome};
ghost use Rattle.gw_outside.specs.Faults.{HasRisen};
ghost use Rattle.jr_dated.specs.Dated.{Dated, undated};
ghost use Rattle.jr_dated.specs.declared.faults.FetchFault.TheVariants as fetch;
ghost use Rattle.jr_boxes.specs.declared.faults.BoxFault.TheVariants as box_fault;
ghost use Rattle.jr_segments.specs.Journal.{OnlyRead, RestsOn, broken_of, disk_of};
ghost use Rattle.jr_judge.specs.Judged.{AreThoseOf, IsWrong};

use crate::counted::Counted;
use gw_outside::Disk;
use jr_boxes::{BoxFault, Which};
use jr_dated::{FetchFault, Journal};
use jr_segments::SegJournal;
use std::alloc::Global;

/// Why a journal of which a record was not read is not judged as one of the box. A record that has changed is one that the box excludes.
fn not_read(fault: FetchFault) -> BoxFault
    ensures wrong { (at : ℕ) → result ≡ box_fault.Wrong at → fault ≡ fetch.Changed at }
    ensures fault { result ≡ box_fault.Fault → (fault ≡ fetch.Fault) ⊎ (fault ≡ fetch.Broken) }
{
    match fault {
        FetchFault::Memory => BoxFault::Memory,
        FetchFault::Broken | FetchFault::Fault => BoxFault::Fault,
        FetchFault::Changed { at } => BoxFault::Wrong { at },
    }
}

/// Reads the records of a journal as those of this box, one after another. An inbox is read as one of an idempotent flow, which has
/// every record that an inbox of another flow may have.
///
/// # Errors
/// `Wrong` at the first record, from 0 on, that the box excludes, or at one that the disk gives otherwise than it was written, which a
/// disk that tells its content never does; `Fault` where a call of the disk failed; `Memory`.
pub fn judge<D: Disk>(
    alloc: Global,
    which: Which,
    journal: &mut SegJournal<D>,
) -> Result<(), BoxFault>
    requires sound { broken_of journal.old ≡ false }
    ensures those { OnOk result ((h : List Dated) → RestsOn journal.old h → (k : List Dated) × RestsOn journal.new k × AreThoseOf which (undated k)) }
    ensures wrong { (at : ℕ) → result ≡ Err (box_fault.Wrong at) → (h : List Dated) → RestsOn journal.old h → ForSome (D.told (disk_of journal.old)) (IsWrong which at) }
    ensures cause { IsErrOf result box_fault.Fault → HasRisen (D.faults (disk_of journal.old)) (D.faults (disk_of journal.new)) }
    ensures sound { OnOk result (broken_of journal.new ≡ false) }
    ensures read { OnlyRead journal.old journal.new }
    ensures quiet { OnOk result (D.faults (disk_of journal.new) ≡ D.faults (disk_of journal.old)) }
{
    let mut counted = Counted::new(alloc, which);
    let count = journal.len();
    for at in 0..count {
        let r = match journal.record(at) {
            Ok((r, _moment)) => r,
            Err(fault) => return Err(not_read(fault)),
        };
        if !counted.take(at, &r)? {
            return Err(BoxFault::Wrong { at });
        }
    }
    Ok(())
}

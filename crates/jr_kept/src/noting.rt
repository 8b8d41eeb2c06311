//! Noting the records of the journal that an inbox is opened on, and messages ahead of the append that adds their records.

ghost use Rattle.std.specs.Prelude.{◌≡◌, ℕ, ◌+◌, ◌<◌, ◌≤◌, ◌^◌, false, List, [], ◌++◌, length, take, IfOk, IfErr, OnOk, OnErr};
ghost use Rattle.std.specs.List.{AllByRecursion};
ghost use Rattle.gw_outside.specs.Faults.{HasRisen};
ghost use Rattle.session_model.specs.Journal.{counts_from};
ghost use Rattle.fixp_msgs.specs.Payload.{IsApplication};
ghost use Rattle.jr_places.specs.Numbers.{numbers_of};
ghost use Rattle.jr_record.specs.Records.{IsRecord};
ghost use Rattle.jr_dated.specs.Dated.{Dated, undated};
ghost use Rattle.jr_dated.specs.Journals.{Holds, Unchanged as SameJournal};
ghost use Rattle.jr_boxes.specs.Inboxes.{IsWrongAt, records_of_inbox};
ghost use Rattle.jr_boxes.specs.Notes.{Becomes, IsWithin, Noted};
ghost use Rattle.jr_boxes.specs.declared.faults.BoxFault.TheVariants as box_fault;
ghost use Rattle.jr_kept.specs.Notes.{applies as applied_from};

use crate::faults::not_opened;
use fixp_msgs::Flow;
use gw_outside::Bytes;
use jr_boxes::{BoxFault, Notes};
use jr_dated::{Journal, Records};
use jr_places::Segments;
use jr_record::Record;
use std::alloc::{AllocError, Global};

/// Notes the records of a journal, each of which may stand behind those before it in an inbox of this flow. What was read, one
/// record after another, is a list that the journal holds.
pub fn note_records<J: Journal>(
    alloc: Global,
    journal: &mut J,
    flow: Flow,
) -> Result<Notes, BoxFault>
    requires sound { J.is_broken journal.old ≡ false }
    ensures noted { IfOk result (λ notes. ∥ ((dated : List Dated) × Holds J.stands J.leaves journal.new dated [] × Noted flow (undated dated) notes) ∥₁) }
    ensures within { IfOk result (λ notes. IsWithin notes (J.count journal.new)) }
    ensures sound { OnOk result (J.is_broken journal.new ≡ false) }
    ensures wrong { IfErr result (λ fault. (at : ℕ) → fault ≡ box_fault.Wrong at
        → (at < J.count journal.old) × (J.is_told journal.old → (dated : List Dated) → J.stands journal.old dated → IsWrongAt flow (undated dated) at)) }
    ensures cause { IfErr result (λ fault. fault ≡ box_fault.Fault → HasRisen (J.faults journal.old) (J.faults journal.new)) }
    ensures unchanged { SameJournal J.stands J.leaves journal.old journal.new }
    ensures told { OnOk result (J.is_told journal.old → J.is_told journal.new) }
    ensures size { J.size journal.new ≡ J.size journal.old }
    ensures moment { J.moment journal.new ≡ J.moment journal.old }
    ensures limits { J.limits journal.new ≡ J.limits journal.old }
    ensures quiet { OnOk result (J.faults journal.new ≡ J.faults journal.old) }
    ensures never_falls { J.faults journal.old ≤ J.faults journal.new }
{
    let mut notes = Notes::new(alloc);
    let count = journal.len();
    for at in 0..count {
        let r = match journal.read(at) {
            Ok((r, _moment)) => r,
            Err(fault) => return Err(not_opened(fault)),
        };
        if !notes.note(flow, at, &r)? {
            return Err(BoxFault::Wrong { at });
        }
    }
    Ok(notes)
}

/// The records of messages with these payloads that are applied, the first under this number.
pub fn applies(alloc: Global, first: u64, payloads: &[Bytes]) -> Result<Records, AllocError>
    requires least { 1 ≤ first }
    requires room { first + length payloads.now < 2 ^ 64 }
    requires payloads { AllByRecursion IsApplication payloads.now }
    ensures records { IfOk result (λ batch. batch ≡ records_of_inbox (applied_from first payloads.now)) }
    ensures legal { IfOk result (AllByRecursion IsRecord) }
{
    let mut records = Vec::new(alloc);
    let mut number = first;
    let mut rest = payloads;
    while let [payload, behind @ ..] = rest {
        let payload = payload.copy(alloc)?;
        records.push(Record::Apply { number, payload })?;
        number += 1;
        rest = behind;
    }
    Ok(Records::from(records))
}

/// Notes so many messages ahead of their append, at these places of the records; an error changes nothing that is noted.
pub fn note_ahead(notes: &mut Notes, at: u64, n: usize) -> Result<(), AllocError>
    requires room { at + n < 2 ^ 64 }
    ensures ok { OnOk result (Becomes notes.old notes.new notes.old.next notes.old.negotiated notes.old.peer_last (numbers_of notes.old.places ++ counts_from at n)) }
    ensures err { OnErr result (Becomes notes.old notes.new notes.old.next notes.old.negotiated notes.old.peer_last (numbers_of notes.old.places)) }
{
    let held = notes.places.len();
    match push_places(&mut notes.places, at, n) {
        Ok(()) => Ok(()),
        Err(full) => {
            notes.places.shorten(held);
            Err(full)
        }
    }
}

/// Keeps the first places, so many, and takes the next number to be this one.
pub fn settle(notes: &mut Notes, count: usize, next: u64)
    requires least { 1 ≤ next }
    ensures settled { Becomes notes.old notes.new next notes.old.negotiated notes.old.peer_last (take count (numbers_of notes.old.places)) }
{
    notes.places.shorten(count);
    notes.next = next;
}

/// Notes so many places, from this one on; an error may leave some of them noted.
fn push_places(places: &mut Segments, at: u64, n: usize) -> Result<(), AllocError>
    requires room { at + n < 2 ^ 64 }
    ensures ok { OnOk result (numbers_of places.new ≡ numbers_of places.old ++ counts_from at n) }
    ensures begins { take (length (numbers_of places.old)) (numbers_of places.new) ≡ numbers_of places.old }
{
    for i in 0..n {
        places.push(at + i as u64)?;
    }
    Ok(())
}

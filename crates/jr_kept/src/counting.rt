//! Counting the records of the journal that an outbox is opened on.

ghost use Rattle.std.specs.Prelude.{◌≡◌, ℕ, ◌<◌, ◌≤◌, false, List, [], IfOk, IfErr, OnOk};
ghost use Rattle.gw_outside.specs.Faults.{HasRisen};
ghost use Rattle.jr_dated.specs.Dated.{Dated, undated};
ghost use Rattle.jr_dated.specs.Journals.{Holds, Unchanged as SameJournal};
ghost use Rattle.jr_boxes.specs.Outboxes.{IsWrongAt};
ghost use Rattle.jr_boxes.specs.Tallies.{Counted, IsWithin};
ghost use Rattle.jr_boxes.specs.declared.faults.BoxFault.TheVariants as box_fault;

use crate::faults::not_opened;
use jr_boxes::{BoxFault, Tally};
use jr_dated::Journal;

/// Counts the records of a journal, each of which may stand behind those before it. What was read, one record after another,
/// is a list that the journal holds.
pub fn count_records<J: Journal>(journal: &mut J) -> Result<Tally, BoxFault>
    requires sound { J.is_broken journal.old ≡ false }
    ensures counted { IfOk result (λ tally. ∥ ((dated : List Dated) × Holds J.stands J.leaves journal.new dated [] × Counted (undated dated) tally) ∥₁) }
    ensures within { IfOk result (λ tally. IsWithin tally (J.count journal.new)) }
    ensures sound { OnOk result (J.is_broken journal.new ≡ false) }
    ensures wrong { IfErr result (λ fault. (at : ℕ) → fault ≡ box_fault.Wrong at
        → (at < J.count journal.old) × (J.is_told journal.old → (dated : List Dated) → J.stands journal.old dated → IsWrongAt (undated dated) at)) }
    ensures cause { IfErr result (λ fault. fault ≡ box_fault.Fault → HasRisen (J.faults journal.old) (J.faults journal.new)) }
    ensures unchanged { SameJournal J.stands J.leaves journal.old journal.new }
    ensures told { OnOk result (J.is_told journal.old → J.is_told journal.new) }
    ensures size { J.size journal.new ≡ J.size journal.old }
    ensures moment { J.moment journal.new ≡ J.moment journal.old }
    ensures limits { J.limits journal.new ≡ J.limits journal.old }
    ensures quiet { OnOk result (J.faults journal.new ≡ J.faults journal.old) }
    ensures never_falls { J.faults journal.old ≤ J.faults journal.new }
{
    let mut tally = Tally::new();
    let count = journal.len();
    for at in 0..count {
        let r = match journal.read(at) {
            Ok((r, _moment)) => r,
            Err(fault) => return Err(not_opened(fault)),
        };
        if !tally.take(&r) {
            return Err(BoxFault::Wrong { at });
        }
    }
    Ok(tally)
}

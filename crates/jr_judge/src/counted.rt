//! The records of a box, counted one after another.

ghost use Rattle.std.specs.Prelude.{◌≡◌, ℕ, ◌+◌, ◌<◌, ◌^◌, List, [], ◌∷◌, ◌++◌, length, take, slice_get, Some, IsTrue, IsFalse, IfOk};
ghost use Rattle.jr_record.specs.Records.{IsRecord};
ghost use Rattle.jr_record.specs.declared.record.Record as records;
ghost use Rattle.jr_boxes.specs.declared.faults.Which as boxes;

use fixp_msgs::Flow;
use jr_boxes::{Notes, Tally, Which};
use jr_record::Record;
use std::alloc::{AllocError, Global};

/// What was counted of the records of a box.
#[derive(Drop)]
pub enum Counted {
    Outbox(Tally),
    /// An inbox is read as one of an idempotent flow, which has every record that an inbox of another flow may have.
    Inbox(Notes),
}

impl Counted {
    ghost use Rattle.jr_judge.specs.Judged.{IsWrongIn};
    ghost use Rattle.jr_judge.specs.Counted.{IsCounted, IsWithin};

    /// That of no records.
    pub fn new(alloc: Global, which: Which) -> Counted
        ensures none { IsCounted which [] result }
        ensures within { IsWithin result 0 }
    {
        match which {
            Which::Outbox => Counted::Outbox(Tally::new()),
            Which::Inbox => Counted::Inbox(Notes::new(alloc)),
        }
    }

    /// Counts the record of an index, from 0 on, where it may stand behind those counted.
    ///
    /// # Errors
    /// Want of memory.
    pub fn take(&mut self, at: u64, r: &Record) -> Result<bool, AllocError>
        requires legal { IsRecord r.now }
        requires room { IsWithin self.old at }
        requires few { at + 1 < 2 ^ 40 }
        ensures taken { IfOk result (λ fits. IsTrue fits → (which : boxes.Which) (before : List records.Record) → length before ≡ at → IsCounted which before self.old → IsCounted which (before ++ r.now ∷ []) self.new) }
        ensures excluded { IfOk result (λ fits. IsFalse fits → (which : boxes.Which) (all : List records.Record) → slice_get all at ≡ Some r.now → IsCounted which (take at all) self.old → IsWrongIn which all at) }
        ensures within { IfOk result (λ _. IsWithin self.new (at + 1)) }
    {
        match self {
            Counted::Outbox(tally) => Ok(tally.take(r)),
            Counted::Inbox(notes) => notes.note(Flow::Idempotent, at, r),
        }
    }
}

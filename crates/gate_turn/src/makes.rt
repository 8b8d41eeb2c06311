//! How a lock and its passes are made, and how the passes are joined again.
use crate::lock::TurnLock;
use crate::logged::Logged;
use crate::pass::Pass;
use crate::passes::Passes;
use crate::plays::{MakesOne, TakesIn};
use crate::rule::View;
use atomic_table::{Refused, Seat, Table};
use std::alloc::Global;
use std::snapshot::Snapshot;

impl<T: Logged> TurnLock<T> {
    ghost use Rattle.std.specs.Prelude.{◌≡◌, ◌≢◌, ℕ, ◌≤◌, true, [], ◌∷◌, Some, IfOk, IfErr};
    ghost use mathlib.Core.Option.{some};
    ghost use lib.ListN.{get_elem?};
    ghost use Rattle.gate_turn.specs.Views.{new_part};
    ghost use Rattle.gate_turn.specs.Rule.{In};
    ghost use Rattle.gate_turn.specs.Listed.{known_at};
    ghost use Rattle.gate_turn.specs.Calls.{opened_with, MadeWith, AllBack};

    /// The lock with its first pass alone.
    pub(crate) fn open(alloc: Global, value: T) -> Result<(TurnLock<T>, Seat<Option<T>, View>), T>
        requires whole { (T.tells value).broken ≢ true }
        requires clean { (T.tells value).refused ≡ [] }
        ensures opened { IfOk result (λ r. opened_with r.0 ≡ value) }
        ensures seat { IfOk result (λ r. (r.1.table_id ≡ r.0.table.shared.table_id) × (r.1.me ≡ (new_part 1 1 (T.tells value) ∷ [], []))) }
        ensures refused { IfErr result (λ v. v ≡ value) }
    {
        let key = Snapshot::of(&value);
        let count = value.length();
        let slots = Self::one_slot(alloc, value)?;
        match Table::new(alloc, &[0, 0, count, 0], slots, &key) {
            Ok((table, seat)) => Ok((TurnLock { table }, seat)),
            Err(Refused { slots }) => Err(Self::out_of_slot(slots)),
        }
    }

    /// A list of the one slot.
    fn one_slot(alloc: Global, value: T) -> Result<Vec<Option<T>>, T>
        ensures made { IfOk result (λ v. v.items ≡ Some value ∷ []) }
        ensures refused { IfErr result (λ v. v ≡ value) }
    {
        let mut slots = match Vec::with_capacity(alloc, 1) {
            Ok(slots) => slots,
            Err(_) => return Err(value),
        };
        match slots.push(Some(value)) {
            Ok(()) => Ok(slots),
            Err(failed) => {
                slots.destroy_empty();
                let Some(value) = failed.value else {
                    unreachable!()
                };
                Err(value)
            }
        }
    }

    /// The value of the one slot.
    fn out_of_slot(mut slots: Vec<Option<T>>) -> T
        requires full { (value : T) × (slots.items ≡ Some value ∷ []) }
        ensures value { slots.items ≡ Some result ∷ [] }
    {
        let Some(Some(value)) = slots.pop() else {
            unreachable!()
        };
        slots.destroy_empty();
        value
    }

    /// Makes the passes up to a number, from the seat of the first.
    pub(crate) fn make_passes(&self, mut first: Seat<Option<T>, View>, passes: u16) -> Passes<T>
        requires count { (1 ≤ passes) × (passes ≤ 18) }
        requires own { first.table_id ≡ self.now.table.shared.table_id }
        requires new { first.me ≡ (new_part 1 1 (T.tells (opened_with self.now)) ∷ [], []) }
        ensures made { MadeWith self.now result passes (T.tells (opened_with self.now)) }
    {
        let mut list = Passes::new();
        for number in 2..passes + 1 {
            let seat = self.table.shared.split_seat::<MakesOne>(&mut first);
            list.give(Pass::of(number, seat));
        }
        list.give(Pass::of(1, first));
        list
    }

    /// Joins all passes into the seat of the first.
    pub(crate) fn join_passes(&self, mut passes: Passes<T>) -> Seat<Option<T>, View>
        requires back { AllBack self.now passes }
        ensures own { result.table_id ≡ self.now.table.shared.table_id }
        ensures all { (n : ℕ) → In (known_at passes 1).made n → (k : ℕ) × (get_elem? result.me.0 k ≡ some (known_at passes n)) }
    {
        let Some(first) = passes.take(1) else {
            unreachable!()
        };
        let mut keeper = first.into_seat();
        for number in 2..19 {
            if let Some(pass) = passes.take(number) {
                self.table
                    .shared
                    .join_seat::<TakesIn>(&mut keeper, pass.into_seat());
            }
        }
        keeper
    }
}

//! The turn lock: a value at which callers take turns by tickets, and a count of its entries that anyone may read.
ghost use Rattle.std.specs.Prelude.{◌≡◌};

use crate::logged::Logged;
use crate::pass::Pass;
use crate::passes::Passes;
use crate::plays::Looks;
use crate::rule::{Turning, View};
use atomic_table::Table;
use std::alloc::Global;
use std::snapshot::Snapshot;
use std::sync::Wait;

/// The word that has the next ticket, modulo 2^64.
pub(crate) const TICKET: usize = 0;

/// The word that has the ticket that is served, modulo 2^64.
pub(crate) const SERVING: usize = 1;

/// The word that has the number of entries.
pub(crate) const COUNT: usize = 2;

/// The word that is 1 where somebody may sleep who has drawn no ticket.
pub(crate) const ASLEEP: usize = 3;

/// The one slot, which has the value while no pass has the turn.
pub(crate) const SLOT: usize = 0;

/// The value, with whoever has the turn. He may change it, and gives it back by `TurnLock::leave` with the same pass.
pub struct Held<T> {
    pub value: T,
}

/// A value at which callers take turns, by tickets.
pub struct TurnLock<T: Logged> {
    pub(crate) table: Table<Option<T>, View, Snapshot<T>, Turning<T>, Global>,
    ghost shape: { (table.shared.table_id.words ≡ 4) × (table.shared.table_id.slots ≡ 1) },
}

impl<T: Logged> TurnLock<T> {
    ghost use Rattle.std.specs.Prelude.{◌≡◌, ◌≢◌, ℕ, ◌+◌, ◌≤◌, true, List, [], ◌∷◌, Option, Some, None, IfOk, IfErr};
    ghost use Rattle.gate_turn.specs.Views.{part_of, new_part, drawn, got, gave, left, looked_at};
    ghost use Rattle.gate_turn.specs.Steps.{Entered, Returns, Closed};
    ghost use Rattle.gate_turn.specs.Places.{known};
    ghost use Rattle.gate_turn.specs.Listed.{known_at};
    ghost use Rattle.gate_turn.specs.Calls.{IsFree, HasTurn, IsPassOf, opened_with, MadeWith, AllBack};

    /// Makes a lock round a value that is not broken and has refused nothing, with 1 to 18 passes.
    ///
    /// # Errors
    ///
    /// The value comes back where memory runs out.
    pub fn new(alloc: Global, value: T, passes: u16) -> Result<(TurnLock<T>, Passes<T>), T>
        requires count { (1 ≤ passes) × (passes ≤ 18) }
        requires whole { (T.tells value).broken ≢ true }
        requires clean { (T.tells value).refused ≡ [] }
        ensures opened { IfOk result (λ r. opened_with r.0 ≡ value) }
        ensures made { IfOk result (λ r. MadeWith r.0 r.1 passes (T.tells value)) }
        ensures refused { IfErr result (λ v. v ≡ value) }
    {
        let (lock, first) = Self::open(alloc, value)?;
        let passes = lock.make_passes(first, passes);
        Ok((lock, passes))
    }

    /// Waits for the turn of the pass, and takes the value out. Who runs may get it before those who sleep.
    pub fn enter<R: Wait>(&self, pass: &mut Pass<T>, rt: &R) -> Held<T>
        requires own { IsPassOf self.now pass.old }
        requires free { IsFree pass.old }
        ensures own { IsPassOf self.now pass.new }
        ensures turn { HasTurn pass.new }
        ensures entered { Entered (known pass.old) (known pass.new) (T.tells result.value) }
    {
        self.approach(&mut pass.seat, rt);
        let value = self.wait_turn(&mut pass.seat, rt);
        Held { value }
    }

    /// As `enter`, but the pass draws its ticket at once: who has none by then comes behind it. It is for one caller among
    /// many, whose wait is then that for those with a ticket, few as they are.
    pub fn enter_next<R: Wait>(&self, pass: &mut Pass<T>, rt: &R) -> Held<T>
        requires own { IsPassOf self.now pass.old }
        requires free { IsFree pass.old }
        ensures own { IsPassOf self.now pass.new }
        ensures turn { HasTurn pass.new }
        ensures entered { Entered (known pass.old) (known pass.new) (T.tells result.value) }
    {
        let value = self.wait_turn(&mut pass.seat, rt);
        Held { value }
    }

    /// Publishes what the holder added to the value, entries of the pass's number or the mark, and gives the turn on. Where its
    /// device failed on them, it may have refused them.
    pub fn leave(&self, pass: &mut Pass<T>, held: Held<T>)
        requires own { IsPassOf self.now pass.old }
        requires turn { HasTurn pass.old }
        requires returns { Returns (known pass.old) (T.tells held.value) }
        ensures own { IsPassOf self.now pass.new }
        ensures free { IsFree pass.new }
        ensures left { known pass.new ≡ left (T.tells held.value) (known pass.old) }
    {
        let Held { value } = held;
        self.give_on(&mut pass.seat, value);
    }

    /// Reads the number of entries. It waits for nobody.
    pub fn front(&self, pass: &mut Pass<T>) -> u64
        requires own { IsPassOf self.now pass.old }
        ensures own { IsPassOf self.now pass.new }
        ensures rises { (known pass.old).looked ≤ result }
        ensures looked { known pass.new ≡ looked_at result (known pass.old) }
        ensures free { IsFree pass.old → IsFree pass.new }
        ensures turn { HasTurn pass.old → HasTurn pass.new }
    {
        self.table.shared.load::<Looks>(&mut pass.seat, COUNT)
    }

    /// Takes the value out for good, once all passes are back.
    pub fn close(self, passes: Passes<T>) -> T
        requires back { AllBack self passes }
        ensures closed { Closed (known_at passes) (known_at passes 1).made (T.tells (opened_with self)) (T.tells result) }
    {
        let keeper = self.join_passes(passes);
        let TurnLock { table } = self;
        let mut closed = table.close_with(keeper);
        let Some(value) = closed.take(SLOT) else {
            unreachable!()
        };
        closed.free();
        value
    }
}

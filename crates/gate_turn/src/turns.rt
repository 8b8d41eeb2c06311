//! How a pass gets the turn and gives it on: the steps on the lock's words, for the seat that the pass has.
use crate::lock::{ASLEEP, COUNT, SERVING, SLOT, TICKET, TurnLock};
use crate::logged::Logged;
use crate::plays::{Draws, GivesOn, Notes, Publishes, Waits};
use crate::rule::View;
use atomic_table::Seat;
use std::hint::spin_loop;
use std::sync::Wait;

/// How often a caller without a ticket looks whether the lock is open before it sleeps. It is little: who looks for long meets
/// the moment between two turns of whoever runs, and then both wait for each other at each turn.
const LOOKS: u32 = 20;

/// How often a pass with a ticket looks for its turn before it sleeps. It is much, since nobody goes before it while it sleeps.
const TICKET_LOOKS: u32 = 2000;

impl<T: Logged> TurnLock<T> {
    ghost use Rattle.std.specs.Prelude.{◌≡◌, [], ◌∷◌, Some, None};
    ghost use Rattle.gate_turn.specs.Views.{part_of, left};
    ghost use Rattle.gate_turn.specs.Steps.{Entered, Returns};

    /// Draws a ticket, waits until it is served, and takes the value out of the slot.
    pub(crate) fn wait_turn<R: Wait>(&self, seat: &mut Seat<Option<T>, View>, rt: &R) -> T
        requires own { seat.old.table_id ≡ self.now.table.shared.table_id }
        requires one { seat.old.me.0 ≡ part_of seat.old.me.0 ∷ [] }
        requires slot { seat.old.me.1 ≡ [] }
        requires ticket { (part_of seat.old.me.0).ticket ≡ None }
        requires held { (part_of seat.old.me.0).held ≡ None }
        ensures own { seat.new.table_id ≡ seat.old.table_id }
        ensures slot { seat.new.me.1 ≡ (0, None) ∷ [] }
        ensures one { seat.new.me.0 ≡ part_of seat.new.me.0 ∷ [] }
        ensures entered { Entered (part_of seat.old.me.0) (part_of seat.new.me.0) (T.tells result) }
    {
        let ticket = self.table.shared.fetch_add::<Draws>(seat, TICKET, 1);
        for _ in rt.forever() {
            let serving = self.table.shared.load::<Waits>(seat, SERVING);
            if serving == ticket {
                return self.take_out(seat);
            }
            self.await_next(serving, rt);
        }
        unreachable!()
    }

    /// Waits until nobody waits with a ticket or has the turn, as it looks. Who draws no ticket until then lets whoever runs go
    /// first, so that a turn need not wait for a thread that sleeps.
    pub(crate) fn approach<R: Wait>(&self, seat: &mut Seat<Option<T>, View>, rt: &R)
        requires own { seat.old.table_id ≡ self.now.table.shared.table_id }
        ensures own { seat.new.table_id ≡ seat.old.table_id }
        ensures me { seat.new.me ≡ seat.old.me }
    {
        if self.opens() {
            return;
        }
        for _ in rt.forever() {
            // Noted before the last look: who gives the turn on behind that look finds the note, and wakes.
            self.table.shared.store::<Notes>(seat, ASLEEP, 1);
            if self.is_open() {
                return;
            }
            self.table.shared.park(rt, ASLEEP, 1);
            let _ = self.opens();
        }
    }

    /// Whether nobody waits with a ticket or has the turn, as it looks.
    fn is_open(&self) -> bool {
        self.table.shared.peek(SERVING) == self.table.shared.peek(TICKET)
    }

    /// Looks for a while whether nobody waits with a ticket or has the turn.
    fn opens(&self) -> bool {
        for _ in 0..LOOKS {
            if self.is_open() {
                return true;
            }
            spin_loop();
        }
        false
    }

    /// Waits until another ticket than this one is served. It may also return for no reason.
    fn await_next<R: Wait>(&self, serving: u64, rt: &R) {
        for _ in 0..TICKET_LOOKS {
            if self.table.shared.peek(SERVING) != serving {
                return;
            }
            spin_loop();
        }
        // At most 17 turns come before this one, so the low half of the word tells each change.
        self.table
            .shared
            .park(rt, SERVING, (serving % (1 << 32)) as u32);
    }

    /// Takes the value out of the slot, which the seat holds.
    fn take_out(&self, seat: &mut Seat<Option<T>, View>) -> T
        requires own { seat.old.table_id ≡ self.now.table.shared.table_id }
        requires slot { (value : T) × (seat.old.me.1 ≡ (0, Some value) ∷ []) }
        ensures own { seat.new.table_id ≡ seat.old.table_id }
        ensures value { seat.old.me.1 ≡ (0, Some result) ∷ [] }
        ensures view { seat.new.me.0 ≡ seat.old.me.0 }
        ensures slot { seat.new.me.1 ≡ (0, None) ∷ [] }
    {
        let Some(value) = self.table.shared.exchange(seat, SLOT, None) else {
            unreachable!()
        };
        value
    }

    /// Puts the value into the slot, publishes its number of entries, and lets the next ticket be served.
    pub(crate) fn give_on(&self, seat: &mut Seat<Option<T>, View>, value: T)
        requires own { seat.old.table_id ≡ self.now.table.shared.table_id }
        requires one { seat.old.me.0 ≡ part_of seat.old.me.0 ∷ [] }
        requires slot { seat.old.me.1 ≡ (0, None) ∷ [] }
        requires held { (part_of seat.old.me.0).held ≡ Some (part_of seat.old.me.0).seen }
        requires returns { Returns (part_of seat.old.me.0) (T.tells value) }
        ensures own { seat.new.table_id ≡ seat.old.table_id }
        ensures slot { seat.new.me.1 ≡ [] }
        ensures left { seat.new.me.0 ≡ left (T.tells value) (part_of seat.old.me.0) ∷ [] }
    {
        let count = value.length();
        let before = self.table.shared.exchange(seat, SLOT, Some(value));
        let None = before else { unreachable!() };
        self.table.shared.store::<Publishes>(seat, COUNT, count);
        let served = self.table.shared.fetch_add::<GivesOn>(seat, SERVING, 1);
        self.wake(seat, served.wrapping_add(1));
    }

    /// Wakes who may wait for this ticket, or else one of those that wait without a ticket. Where nobody waits it only looks.
    fn wake(&self, seat: &mut Seat<Option<T>, View>, serving: u64)
        requires own { seat.old.table_id ≡ self.now.table.shared.table_id }
        ensures own { seat.new.table_id ≡ seat.old.table_id }
        ensures me { seat.new.me ≡ seat.old.me }
    {
        if self.table.shared.peek(TICKET) != serving {
            self.table.shared.wake_all(SERVING);
        } else if self.table.shared.peek(ASLEEP) == 1 {
            self.table.shared.store::<Notes>(seat, ASLEEP, 0);
            self.table.shared.wake_one(ASLEEP);
        }
    }
}

//! A caller's token for a turn lock.
ghost use Rattle.std.specs.Prelude.{◌≡◌, [], ◌∷◌, ◌≤◌};
ghost use Rattle.gate_turn.specs.Views.{part_of};

use crate::rule::View;
use atomic_table::Seat;

/// A caller's pass of one turn lock. It has a number, from 1 to 18; what it knows stands in clauses alone.
#[derive(Drop)]
pub struct Pass<T> {
    pub(crate) number: u16,
    pub(crate) seat: Seat<Option<T>, View>,
    pub ghost knows: { seat.me.0 ≡ part_of seat.me.0 ∷ [] },
    pub ghost numbered: { (part_of seat.me.0).number ≡ number },
    pub ghost in_range: { (1 ≤ number) × (number ≤ 18) },
}

impl<T> Pass<T> {
    /// The pass of a seat that knows the part of that number.
    pub(crate) fn of(number: u16, seat: Seat<Option<T>, View>) -> Pass<T>
        requires knows { seat.me.0 ≡ part_of seat.me.0 ∷ [] }
        requires numbered { (part_of seat.me.0).number ≡ number }
        requires in_range { (1 ≤ number) × (number ≤ 18) }
        ensures seat { result.seat ≡ seat }
        ensures number { result.number ≡ number }
    {
        Pass { number, seat }
    }

    /// Its seat.
    pub(crate) fn into_seat(self) -> Seat<Option<T>, View>
        ensures seat { result ≡ self.seat }
    {
        let Pass { number: _, seat } = self;
        seat
    }

    /// Its number: that of its sender, from 1 on, or one past the senders.
    pub fn number(&self) -> u16
        ensures exact { result ≡ (part_of self.now.seat.me.0).number }
        ensures in_range { (1 ≤ result) × (result ≤ 18) }
    {
        self.number
    }
}

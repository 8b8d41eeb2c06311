//! The mark behind all lines.

ghost use Rattle.std.specs.Prelude.{◌≡◌, ◌<◌, length, IsTrue, IsFalse};
ghost use Rattle.gate_turn.specs.Places.{known};

use crate::feeder::Feeder;
use conn_door::{ServeFault, finish_by};
use gate_senders::Gate;
use gw_outside::Sink;
use jr_dated::Journal;
use std::sync::Wait;

impl<J: Journal, K: Sink> Feeder<J, K> {
    ghost use Rattle.conn_feed.specs.Fed.{AtSeats, parts_of};
    ghost use Rattle.conn_feed.specs.Ends.{FinishedBy};

    /// Whether it has no senders.
    pub fn is_empty(&self) -> bool
        ensures yes { IsTrue result → length self.now.senders.items ≡ 0 }
        ensures no { IsFalse result → 0 < length self.now.senders.items }
    {
        self.senders.is_empty()
    }

    /// Adds the mark that nothing more comes, by the pass of the first sender. Answers the refusal that was met, if one was other than that the mark
    /// stands already.
    pub fn finish<R: Wait>(&mut self, gate: &Gate<J>, rt: &R) -> Option<ServeFault>
        requires seats { AtSeats gate.now self.old.senders.items }
        requires some { 0 < length self.old.senders.items }
        ensures seats { AtSeats gate.now self.new.senders.items }
        ensures long { length self.new.senders.items ≡ length self.old.senders.items }
        ensures finished { FinishedBy (parts_of self.old.senders.items) (parts_of self.new.senders.items) result }
        ensures accepted { self.new.accepted ≡ self.old.accepted }
    {
        let seat = &mut self.senders[0];
        finish_by(gate, &mut seat.pass, rt)
    }
}

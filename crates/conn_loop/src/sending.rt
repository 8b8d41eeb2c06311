//! What a turn sends over its link, and what it answers.

ghost use Rattle.std.specs.Prelude.{◌≡◌, ◌≤◌, ◌==◌, [], ◌∷◌, length, not, true, None, OnErr};
ghost use Rattle.gw_outside.specs.Faults.{HasRisen};
ghost use Rattle.fixp_machine.specs.Machine.{run, link_end};

use crate::conn::Conn;
use conn_turns::{TurnEnd, TurnFault};
use fixp_end::Ending;
use gw_links::{Link, send_front};

impl Conn {
    ghost use Rattle.conn_loop.specs.Conn.{line_of, answer_of, KeepsAll};
    ghost use Rattle.conn_loop.specs.Moving.{SentOnce, IsLossOf, link_at};

    /// How the turn ends that did not fail.
    pub(crate) fn answer(&self) -> TurnEnd
        ensures { result ≡ answer_of (line_of self.now).machine.ending }
    {
        match self.end.ending() {
            Some(ending) => TurnEnd::Ended(ending),
            None => TurnEnd::Go,
        }
    }

    /// The link failed: the connection ends, unless it has ended before, and where both finishes were exchanged that is no fault.
    #[tactic(auto, using(crate::proofs::Machine::link_keeps, crate::proofs::Machine::link_drained, crate::proofs::Machine::link_ends))]
    pub(crate) fn lose_link(&mut self) -> Result<TurnEnd, TurnFault>
        requires { (line_of self.old).machine.begun ≡ true }
        ensures line { line_of self.new ≡ record (line_of self.old) { machine = run (line_of self.old).machine (link_end ∷ []) } }
        ensures answer { IsLossOf (line_of self.old).machine (line_of self.new).machine result }
        ensures keeps { KeepsAll (line_of self.old).machine (line_of self.new).machine (line_of self.old).machine.moment }
        ensures facts { (line_of self.new).machine.facts ≡ (line_of self.old).machine.facts }
        ensures unsent { (line_of self.new).machine.unsent ≡ (line_of self.old).machine.unsent }
    {
        let before = self.end.ending();
        self.end.on_link_end();
        match (before, self.end.ending()) {
            (None, Some(Ending::Finished)) => Ok(TurnEnd::Ended(Ending::Finished)),
            (None, _) => Err(TurnFault::Link),
            (Some(ending), _) => Ok(TurnEnd::Ended(ending)),
        }
    }

    /// Whether output is unsent.
    pub(crate) fn has_unsent(&self) -> bool
        ensures { result ≡ not (length (line_of self.now).machine.unsent == 0) }
    {
        !self.end.out().is_empty()
    }

    /// Sends what is unsent, until the link takes nothing.
    #[tactic(auto, using(crate::proofs::Machine::taken_drained))]
    pub(crate) fn send<L: Link>(&mut self, link: &mut L) -> Result<TurnEnd, TurnFault>
        requires { (line_of self.old).machine.begun ≡ true }
        ensures sent { SentOnce (link_at (L.faults link.old) (L.told link.old) (L.carried link.old)) (link_at (L.faults link.new) (L.told link.new) (L.carried link.new)) (line_of self.old) (line_of self.new) result }
        ensures answer { IsLossOf (line_of self.old).machine (line_of self.new).machine result }
        ensures keeps { KeepsAll (line_of self.old).machine (line_of self.new).machine (line_of self.old).machine.moment }
        ensures facts { (line_of self.new).machine.facts ≡ (line_of self.old).machine.facts }
        ensures little { length (line_of self.new).machine.unsent ≤ length (line_of self.old).machine.unsent }
        ensures goes { (line_of self.new).machine.ending ≡ None → (line_of self.old).machine.ending ≡ None }
        ensures cause { OnErr result (HasRisen (L.faults link.old) (L.faults link.new)) }
        ensures never_falls { L.faults link.old ≤ L.faults link.new }
        ensures stays { L.place link.new ≡ L.place link.old }
    {
        match send_front(link, self.end.out()) {
            Ok(count) => {
                self.end.taken(count);
                self.waits = self.has_unsent();
                Ok(self.answer())
            }
            Err(_) => {
                self.waits = self.has_unsent();
                self.lose_link()
            }
        }
    }
}

//! One sender, and how what is left of its plan is submitted.
ghost use Rattle.std.specs.Prelude.{◌≡◌, ◌≢◌, ◌+◌, ◌<◌, ◌≤◌, ◌^◌, true, false, None, length, IsTrue, IsFalse};

use crate::door::Door;
use gate_senders::{Gate, Kept};
use gate_turn::Pass;
use jr_boxes::SubmitFault;
use jr_dated::Journal;
use plan_values::Plan;
use std::sync::Wait;

/// The most messages that a sender submits in one piece.
pub const PIECE_MESSAGES: u64 = 64;

/// The most bytes that their payloads have, where they are more than one.
pub const PIECE_BYTES: u64 = 256 * 1024;

/// A sender of a gate, with what it is to send.
#[derive(Drop)]
pub struct Sender<J: Journal> {
    pub pass: Pass<Kept<J>>,
    pub plan: Plan,
    /// How many messages of the plan were accepted, or counted as such when the sender was made.
    pub done: u64,
    /// The refusal that the last run met at this sender, or None.
    pub refused: Option<SubmitFault>,
    /// Whether the door turned it away in the last run.
    pub turned: bool,
}

impl<J: Journal> Sender<J> {
    ghost use Rattle.gate_staff.specs.Runs.{IsReady, plan_of, Pieced, Ran, Resumed, IsAdmitted, Counted};

    /// Counts the messages that the outbox has of it as done.
    #[tactic(auto, using(crate::proofs::Running::counts))]
    pub(crate) fn count_done<R: Wait>(&mut self, gate: &Gate<J>, rt: &R)
        requires ready { IsReady gate.now self.old }
        ensures counted { Counted gate.now self.old self.new }
    {
        self.done = gate.mine(&mut self.pass, rt);
    }

    /// Submits what is left of the plan, piece by piece, until all is done, or a message is refused, or the door turns it away.
    pub(crate) fn submit_rest<D: Door, R: Wait>(&mut self, gate: &Gate<J>, door: &D, rt: &R)
        requires ready { IsReady gate.now self.old }
        ensures ran { Ran gate.now self.old self.new }
        ensures admits { D.turns ≡ false → self.new.turned ≡ false }
    {
        self.refused = None;
        self.turned = false;
        'pieces: while self.done < self.plan.len() {
            let count = self.next_piece(door, rt);
            if count == 0 {
                self.turned = true;
                break;
            }
            if !self.submit_piece(count, gate, door, rt) {
                break;
            }
        }
    }

    /// How many messages of the plan, from the next one on, are the next piece: those that the door lets in, up to the limits of a piece.
    /// None where the door turns the sender away. It waits at the door for the first of them alone.
    fn next_piece<D: Door, R: Wait>(&self, door: &D, rt: &R) -> u64
        requires left { self.now.done < length (plan_of self.now) }
        ensures within { self.now.done + result ≤ length (plan_of self.now) }
        ensures few { result ≤ 64 }
        ensures away { result ≡ 0 → D.turns ≡ true }
    {
        let sender = self.pass.number();
        let most = PIECE_MESSAGES.min(self.plan.len() - self.done);
        if !door.before(sender, self.done + 1, rt) {
            return 0;
        }
        let mut room = PIECE_BYTES.saturating_sub(self.plan.payload(self.done + 1).len() as u64);
        for count in 1..most {
            let next = self.done + count + 1;
            let size = self.plan.payload(next).len() as u64;
            if size > room || !door.with_it(sender, next, rt) {
                return count;
            }
            room -= size;
        }
        most
    }

    /// Submits what is left of the plan, unless a message was refused before and no door turned it away since: then it stays as it is.
    pub(crate) fn go_on<D: Door, R: Wait>(&mut self, gate: &Gate<J>, door: &D, rt: &R)
        requires ready { IsReady gate.now self.old }
        ensures resumed { Resumed gate.now self.old self.new }
        ensures admitted { D.turns ≡ false → IsAdmitted self.new }
    {
        if self.refused.is_none() || self.turned {
            self.submit_rest(gate, door, rt);
        }
    }

    /// Submits so many messages of the plan in one piece, from the next one on, and says whether all were accepted. The door is told
    /// of either.
    fn submit_piece<D: Door, R: Wait>(
        &mut self,
        count: u64,
        gate: &Gate<J>,
        door: &D,
        rt: &R,
    ) -> bool
        requires ready { IsReady gate.now self.old }
        requires unrefused { self.old.refused ≡ None }
        requires some { 0 < count }
        requires few { count ≤ 64 }
        requires within { self.old.done + count ≤ length (plan_of self.old) }
        requires fits { self.old.done + count < 2 ^ 64 }
        ensures pieced { Pieced gate.now self.old self.new }
        ensures accepted { IsTrue result → self.new.refused ≡ None }
        ensures refused { IsFalse result → self.new.refused ≢ None }
    {
        let piece = self.plan.piece(self.done, count);
        let submission = gate.submit_all(&mut self.pass, piece, rt);
        self.done += submission.count;
        self.refused = submission.refused;
        match submission.refused {
            None => {
                door.accepted();
                true
            }
            Some(fault) => {
                door.refused(fault, rt);
                false
            }
        }
    }
}

//! What a turn sends of the outbox.

ghost use Rattle.std.specs.Prelude.{◌≡◌, ◌≢◌, ℕ, ◌+◌, ◌*◌, ◌^◌, ◌<◌, ◌≤◌, not, length, true, false, None, Ok, Err, IfOk, IfErr, IfSome, OnOk, is_some, if◌then◌else◌, min};
ghost use Rattle.fixp_shake.specs.Flows.{is_absent};
ghost use Rattle.fixp_machine.specs.Machine.{front_of, run};
ghost use Rattle.jr_dated.specs.declared.faults.FetchFault.TheVariants as fetching;
ghost use Rattle.gate_turn.specs.Views.{HasFailed, Part};
ghost use Rattle.gate_turn.specs.Places.{known};
ghost use Rattle.gate_turn.specs.Calls.{IsFree};
ghost use Rattle.gate_senders.specs.Gate.{IsPassAt};
ghost use Rattle.conn_turns.specs.Turns.{again_calls, live_calls, finish_calls, served_of, served_now, sends_live, live_of, finish_of};
ghost use Rattle.conn_loop.specs.Conn.{MayServe, SameInbox, Looks, most_closed};
ghost use Rattle.conn_loop.specs.Serving.{SentDue, ServedOutbox, BlamesPass, fault_of};

use crate::conn::Conn;
use conn_turns::TurnFault;
use fixp_end::{Flow, Phase};
use gate_senders::{Gate, Kept, Look};
use gate_turn::Pass;
use jr_dated::{FetchFault, Journal};
use std::sync::Wait;

/// A refusal of the outbox, as a turn answers it.
fn refusal(fault: FetchFault) -> TurnFault
    ensures { result ≡ fault_of fault }
{
    match fault {
        FetchFault::Broken => TurnFault::Broken,
        FetchFault::Memory => TurnFault::Memory,
        FetchFault::Fault => TurnFault::Outbox,
        FetchFault::Changed { at } => TurnFault::Changed { at },
    }
}

/// How many entries of a range of so many a turn sends again that sends so many at most.
fn entries_of(most: u16, count: u64) -> u16
    ensures { result ≡ min most count }
{
    u64::from(most).min(count) as u16
}

impl Conn {
    ghost use Rattle.conn_loop.specs.Conn.{line_of};

    /// Whether this end has a flow of its own.
    fn has_flow(&self) -> bool
        ensures { result ≡ not (is_absent (line_of self.now).machine.config.own_flow) }
    {
        match self.end.config().own_flow {
            Flow::None => false,
            Flow::Recoverable | Flow::Idempotent | Flow::Unsequenced => true,
        }
    }

    /// Whether entries are sent live.
    fn sends_live(&self) -> bool
        ensures { result ≡ sends_live (line_of self.now).machine }
    {
        if self.end.ending().is_some() {
            return false;
        }
        let established = match self.end.phase() {
            Phase::Established => true,
            _ => false,
        };
        established && self.end.serving().is_none() && self.has_flow()
    }

    /// Sends entries of the range again that is served, from its front and as many as a turn sends at most, if one is. Answers whether one is.
    pub(crate) fn send_again<J: Journal, R: Wait>(
        &mut self,
        gate: &Gate<J>,
        pass: &mut Pass<Kept<J>>,
        now: u64,
        rt: &R,
    ) -> Result<bool, FetchFault>
        requires own { IsPassAt gate.now pass.old }
        requires free { IsFree pass.old }
        requires serve { MayServe (line_of self.old).machine now 750000 (known pass.old) }
        requires time { now < 2 ^ 44 }
        ensures own { IsPassAt gate.now pass.new }
        ensures free { IsFree pass.new }
        ensures looks { Looks (known pass.old) (known pass.new) }
        ensures most { (known pass.new).turns ≤ (known pass.old).turns + 1 }
        ensures again { OnOk result (SentDue J.tells (served_of (line_of self.old).per_turn (served_now (line_of self.old).machine) (known pass.new).seen) (again_calls now) (line_of self.old) (line_of self.new)) }
        ensures serve { IfOk result (λ again. MayServe (line_of self.new).machine now (if again then 4960000 else 750000) (known pass.new)) }
        ensures same { OnOk result (SameInbox (line_of self.old).machine (line_of self.new).machine) }
        ensures some { IfOk result (λ again. again ≡ is_some (served_now (line_of self.old).machine)) }
        ensures fault { result ≡ Err fetching.Fault → HasFailed (known pass.old).faults (known pass.new).faults }
        ensures broken { result ≡ Err fetching.Broken → HasFailed (known pass.new).opening.faults (known pass.new).faults }
        ensures changed { (at : ℕ) → result ≡ Err (fetching.Changed at) → (at < length (known pass.new).seen.made) × (J.tells → ⊥) }
    {
        if self.end.ending().is_some() {
            return Ok(false);
        }
        let Some(range) = self.end.serving() else {
            return Ok(false);
        };
        let most = entries_of(self.per_turn, range.count);
        match gate.fetch(pass, range.from, most, rt) {
            Ok(entries) => {
                self.end.send_again(entries.as_slice(), now);
                Ok(true)
            }
            Err(fault) => Err(fault),
        }
    }

    /// The outbox's mark, where this end has a flow of its own and it stands.
    #[tactic(auto, using(crate::proofs::Machine::finish_marked, crate::proofs::Machine::finish_none))]
    fn mark<J: Journal, R: Wait>(
        &self,
        gate: &Gate<J>,
        pass: &mut Pass<Kept<J>>,
        now: u64,
        rt: &R,
    ) -> Option<u64>
        requires own { IsPassAt gate.now pass.old }
        requires free { IsFree pass.old }
        requires time { now < 2 ^ 44 }
        ensures own { IsPassAt gate.now pass.new }
        ensures free { IsFree pass.new }
        ensures looks { Looks (known pass.old) (known pass.new) }
        ensures most { (known pass.new).turns ≤ (known pass.old).turns + 1 }
        ensures least { is_absent (line_of self.now).machine.config.own_flow ≡ false → (known pass.old).turns < (known pass.new).turns }
        ensures mark { result ≡ finish_of (line_of self.now).machine (known pass.new).seen }
    {
        if !self.has_flow() {
            return None;
        }
        gate.closed(pass, now, rt)
    }

    /// Sends entries live, where that may be: those behind the last one sent. Answers the outbox's mark, as it was seen with them,
    /// where this end has a flow of its own and it stands.
    fn send_live<J: Journal, R: Wait>(
        &mut self,
        gate: &Gate<J>,
        pass: &mut Pass<Kept<J>>,
        now: u64,
        rt: &R,
    ) -> Result<Option<u64>, FetchFault>
        requires own { IsPassAt gate.now pass.old }
        requires free { IsFree pass.old }
        requires serve { MayServe (line_of self.old).machine now 750000 (known pass.old) }
        requires time { now < 2 ^ 44 }
        ensures own { IsPassAt gate.now pass.new }
        ensures free { IsFree pass.new }
        ensures looks { Looks (known pass.old) (known pass.new) }
        ensures most { (known pass.new).turns ≤ (known pass.old).turns + 1 }
        ensures least { is_absent (line_of self.old).machine.config.own_flow ≡ false → (known pass.old).turns < (known pass.new).turns }
        ensures live { OnOk result (SentDue J.tells (live_of (line_of self.old).per_turn (line_of self.old).machine (known pass.new).seen) (live_calls now) (line_of self.old) (line_of self.new)) }
        ensures mark { IfOk result (λ mark. mark ≡ finish_of (line_of self.old).machine (known pass.new).seen) }
        ensures serve { OnOk result (MayServe (line_of self.new).machine now 4960000 (known pass.new)) }
        ensures same { OnOk result (SameInbox (line_of self.old).machine (line_of self.new).machine) }
        ensures serving { OnOk result ((line_of self.new).machine.facts.connection.serving ≡ (line_of self.old).machine.facts.connection.serving) }
        ensures fault { result ≡ Err fetching.Fault → HasFailed (known pass.old).faults (known pass.new).faults }
        ensures broken { result ≡ Err fetching.Broken → HasFailed (known pass.new).opening.faults (known pass.new).faults }
        ensures changed { (at : ℕ) → result ≡ Err (fetching.Changed at) → (at < length (known pass.new).seen.made) × (J.tells → ⊥) }
    {
        if !self.sends_live() {
            return Ok(self.mark(gate, pass, now, rt));
        }
        match gate.look(pass, self.end.sent() + 1, self.per_turn, now, rt) {
            Ok(Look { entries, mark }) => {
                self.end.send_live(entries.as_slice(), now);
                Ok(mark)
            }
            Err(fault) => Err(fault),
        }
    }

    /// Sends entries live, as `send_live` does, unless entries were sent again in this turn. Answers the outbox's mark as that does.
    fn send_beside<J: Journal, R: Wait>(
        &mut self,
        gate: &Gate<J>,
        pass: &mut Pass<Kept<J>>,
        again: bool,
        now: u64,
        rt: &R,
    ) -> Result<Option<u64>, FetchFault>
        requires own { IsPassAt gate.now pass.old }
        requires free { IsFree pass.old }
        requires serve { MayServe (line_of self.old).machine now (if again then 4960000 else 750000) (known pass.old) }
        requires time { now < 2 ^ 44 }
        ensures own { IsPassAt gate.now pass.new }
        ensures free { IsFree pass.new }
        ensures looks { Looks (known pass.old) (known pass.new) }
        ensures most { (known pass.new).turns ≤ (known pass.old).turns + 1 }
        ensures least { is_absent (line_of self.old).machine.config.own_flow ≡ false → (known pass.old).turns < (known pass.new).turns }
        ensures live { OnOk result (SentDue J.tells (if again then None else live_of (line_of self.old).per_turn (line_of self.old).machine (known pass.new).seen) (live_calls now) (line_of self.old) (line_of self.new)) }
        ensures mark { IfOk result (λ mark. mark ≡ finish_of (line_of self.old).machine (known pass.new).seen) }
        ensures serve { OnOk result (MayServe (line_of self.new).machine now 4960000 (known pass.new)) }
        ensures same { OnOk result (SameInbox (line_of self.old).machine (line_of self.new).machine) }
        ensures serving { OnOk result ((line_of self.new).machine.facts.connection.serving ≡ (line_of self.old).machine.facts.connection.serving) }
        ensures fault { result ≡ Err fetching.Fault → HasFailed (known pass.old).faults (known pass.new).faults }
        ensures broken { result ≡ Err fetching.Broken → HasFailed (known pass.new).opening.faults (known pass.new).faults }
        ensures changed { (at : ℕ) → result ≡ Err (fetching.Changed at) → (at < length (known pass.new).seen.made) × (J.tells → ⊥) }
    {
        if again {
            return Ok(self.mark(gate, pass, now, rt));
        }
        self.send_live(gate, pass, now, rt)
    }

    /// Tells the machine of the outbox's finish, if it is there.
    #[tactic(auto, using(crate::proofs::Machine::closed_keeps, crate::proofs::Machine::closed_drained))]
    fn tell_finish(&mut self, mark: Option<u64>, now: u64)
        requires done { (line_of self.old).machine.pending ≡ None }
        requires drained { front_of (line_of self.old).machine ≡ None }
        requires little { length (line_of self.old).machine.unsent ≤ 4960000 }
        requires time { ((line_of self.old).machine.moment ≤ now) × (now < 2 ^ 44) }
        ensures finish { line_of self.new ≡ record (line_of self.old) { machine = run (line_of self.old).machine (finish_calls now mark) } }
        ensures serve { (p : Part) → IfSome mark (λ n. (p.seen.finished ≡ true) × (length p.seen.made ≡ n)) → MayServe (line_of self.old).machine now 4960000 p → MayServe (line_of self.new).machine now 5000000 p }
        ensures same { SameInbox (line_of self.old).machine (line_of self.new).machine }
        ensures serving { (line_of self.new).machine.facts.connection.serving ≡ (line_of self.old).machine.facts.connection.serving }
    {
        if let Some(last) = mark {
            self.end.closed(last, now);
        }
    }

    /// Sends what the outbox has to send in this turn, and tells its finish: it takes the outbox once for the range that is sent
    /// again, if one is, and once for all else. Where the turn began with output unsent it does neither.
    ///
    /// # Errors
    /// Where the outbox could not be read, a record of it has changed, or there is no memory for what was read.
    pub(crate) fn serve_outbox<J: Journal, R: Wait>(
        &mut self,
        gate: &Gate<J>,
        pass: &mut Pass<Kept<J>>,
        now: u64,
        rt: &R,
    ) -> Result<(), TurnFault>
        requires own { IsPassAt gate.now pass.old }
        requires free { IsFree pass.old }
        requires serve { MayServe (line_of self.old).machine now (most_closed (line_of self.old)) (known pass.old) }
        requires time { now < 2 ^ 44 }
        ensures own { IsPassAt gate.now pass.new }
        ensures free { IsFree pass.new }
        ensures looks { Looks (known pass.old) (known pass.new) }
        ensures most { (known pass.new).turns ≤ (known pass.old).turns + 2 }
        ensures least { OnOk result ((line_of self.old).waits ≡ false → is_absent (line_of self.old).machine.config.own_flow ≡ false → (known pass.old).turns < (known pass.new).turns) }
        ensures served { OnOk result (ServedOutbox J.tells now (known pass.old).seen (known pass.new).seen (line_of self.old) (line_of self.new)) }
        ensures serve { OnOk result (MayServe (line_of self.new).machine now 5000000 (known pass.new)) }
        ensures same { OnOk result (SameInbox (line_of self.old).machine (line_of self.new).machine) }
        ensures blames { IfErr result (BlamesPass J.tells (known pass.old) (known pass.new)) }
    {
        if self.waits {
            return Ok(());
        }
        let again = match self.send_again(gate, pass, now, rt) {
            Ok(again) => again,
            Err(fault) => return Err(refusal(fault)),
        };
        match self.send_beside(gate, pass, again, now, rt) {
            Ok(mark) => {
                self.tell_finish(mark, now);
                Ok(())
            }
            Err(fault) => Err(refusal(fault)),
        }
    }
}

//! What a turn does before it sends: its beginning, and its work.

ghost use Rattle.std.specs.Prelude.{◌≡◌, ◌≢◌, ◌⊎◌, ℕ, ◌+◌, ◌^◌, ◌<◌, ◌≤◌, [], true, false, length, Ok, Err, None, IsSome, IsTrue, IsFalse, IfOk, IfErr, OnOk, OnErr};
ghost use Rattle.fixp_shake.specs.Flows.{is_absent};
ghost use Rattle.gw_outside.specs.Faults.{HasRisen};
ghost use Rattle.fixp_machine.specs.Machine.{front_of};
ghost use Rattle.jr_kept.specs.Inbox.{faults_of, is_broken, size_of, count_of};
ghost use Rattle.gate_turn.specs.Views.{HasFailed};
ghost use Rattle.gate_turn.specs.Places.{known};
ghost use Rattle.gate_turn.specs.Calls.{IsFree};
ghost use Rattle.gate_senders.specs.Gate.{IsPassAt};
ghost use Rattle.conn_turns.specs.News.{items_of};
ghost use Rattle.conn_turns.specs.declared.answer.TurnFault.TheVariants as faults;
ghost use Rattle.conn_turns.specs.Exact.{line_ticked, receives};
ghost use Rattle.conn_steps.specs.Settling.{SameKind};
ghost use Rattle.conn_steps.specs.Agreeing.{IsInTurn, Agrees};
ghost use Rattle.conn_loop.specs.Conn.{GoesOn, HasSeen, Looks, MayServe, most_in_turn};
ghost use Rattle.conn_loop.specs.Turned.{ServedFrames, CutShort};
ghost use Rattle.conn_steps.specs.Ends.{taking_end};

use crate::conn::Conn;
use conn_turns::{News, TurnFault};
use gate_senders::{Gate, Kept};
use gate_turn::Pass;
use jr_dated::Journal;
use jr_kept::Inbox;
use std::alloc::AllocError;
use std::sync::Wait;

/// How many bytes the frame of an entry has at most, and how many may be unsent beside the entries of a turn where an end still receives.
const FRAME: usize = 16_390;

const BESIDE: usize = 37_760;

impl Conn {
    ghost use Rattle.conn_loop.specs.Conn.{line_of};

    /// Whether a turn does more than send: no output is unsent, or the link left some and that is not much.
    fn receives(&self) -> bool
        ensures { result ≡ receives (line_of self.now) }
    {
        let unsent = self.end.out().len();
        let most = usize::from(self.per_turn) * FRAME + BESIDE;
        unsent == 0 || (self.waits && unsent <= most)
    }

    /// Takes the memory of a turn and ticks, and says whether the turn does more than send.
    ///
    /// # Errors
    /// Want of memory: nothing has changed.
    #[tactic(auto, using(crate::proofs::Ticking::tick_len, crate::proofs::Ticking::tick_drained))]
    pub(crate) fn start(&mut self, now: u64) -> Result<bool, AllocError>
        requires goes { GoesOn (line_of self.old).machine }
        requires time { ((line_of self.old).machine.moment ≤ now) × (now < 2 ^ 44) }
        ensures ticked { OnOk result (line_of self.new ≡ line_ticked (line_of self.old) now) }
        ensures little { result ≡ Ok true → receives (line_of self.old) ≡ true }
        ensures unended { result ≡ Ok true → (line_of self.new).machine.ending ≡ None }
        ensures in_turn { result ≡ Ok true → IsInTurn (line_of self.new).machine now (line_of self.new).per_turn (most_in_turn (line_of self.new)) }
        ensures why { result ≡ Ok false → (receives (line_of self.old) ≡ false) ⊎ IsSome (line_of self.new).machine.ending }
        ensures facts { OnOk result ((line_of self.new).machine.facts ≡ (line_of self.old).machine.facts) }
        ensures begun { OnOk result ((line_of self.new).machine.begun ≡ true) }
        ensures done { OnOk result ((line_of self.new).machine.pending ≡ None) }
        ensures untold { OnOk result ((line_of self.new).machine.untold ≡ []) }
        ensures moment { OnOk result ((line_of self.new).machine.moment ≡ now) }
        ensures drained { OnOk result (front_of (line_of self.new).machine ≡ None) }
        ensures small { result ≡ Ok false → (line_of self.new).machine.ending ≡ None → length (line_of self.new).machine.unsent ≤ length (line_of self.old).machine.unsent }
        ensures config { OnOk result ((line_of self.new).machine.config ≡ (line_of self.old).machine.config) }
        ensures most { OnOk result ((line_of self.new).machine.most ≡ (line_of self.old).machine.most) }
        ensures err { OnErr result (line_of self.new ≡ line_of self.old) }
    {
        if self.end.reserve().is_err() {
            return Err(AllocError);
        }
        self.serves = self.end.serving().is_some();
        let receives = self.receives();
        self.waits = self.waits && self.has_unsent();
        self.end.on_tick(now);
        if !receives {
            return Ok(false);
        }
        Ok(self.end.ending().is_none())
    }

    /// Takes frames, tells the machine what ends them, and serves the outbox. What is recorded carries the moment `now`, or a
    /// later one that the inbox had.
    ///
    /// # Errors
    /// Where a record was refused, the outbox could not be read, a record of it has changed, or memory ran out.
    #[tactic(auto, using(crate::proofs::Working::looks_self, crate::proofs::Working::seen_same))]
    pub(crate) fn work<O: Journal, I: Journal, R: Wait>(
        &mut self,
        gate: &Gate<O>,
        pass: &mut Pass<Kept<O>>,
        inbox: &mut Inbox<I>,
        news: &mut News,
        now: u64,
        rt: &R,
    ) -> Result<(), TurnFault>
        requires own { IsPassAt gate.now pass.old }
        requires free { IsFree pass.old }
        requires in_turn { IsInTurn (line_of self.old).machine now (line_of self.old).per_turn (most_in_turn (line_of self.old)) }
        requires time { now < 2 ^ 44 }
        requires place { (line_of self.old).place < 2 ^ 63 }
        requires sent { (line_of self.old).machine.facts.recorded.sent < 2 ^ 40 }
        requires seen { HasSeen (line_of self.old).machine (known pass.old) }
        requires agrees { Agrees (line_of self.old).machine inbox.old }
        ensures own { IsPassAt gate.now pass.new }
        ensures free { IsFree pass.new }
        ensures looks { Looks (known pass.old) (known pass.new) }
        ensures most { (known pass.new).turns ≤ (known pass.old).turns + 2 }
        ensures least { OnOk result ((line_of self.old).waits ≡ false → is_absent (line_of self.old).machine.config.own_flow ≡ false → (known pass.old).turns < (known pass.new).turns) }
        ensures served { OnOk result (ServedFrames O.tells now (known pass.old).seen (known pass.new).seen (taking_end (line_of self.old) inbox.old (items_of news.old)) (taking_end (line_of self.new) inbox.new (items_of news.new))) }
        ensures cut { IfErr result (CutShort now (line_of self.old) inbox.old inbox.new (items_of news.old) (items_of news.new)) }
        ensures serve { OnOk result (MayServe (line_of self.new).machine now 5000000 (known pass.new)) }
        ensures agrees { OnOk result (Agrees (line_of self.new).machine inbox.new) }
        ensures untold { OnOk result ((line_of self.new).machine.ending ≡ None → (line_of self.new).machine.untold ≡ []) }
        ensures config { OnOk result ((line_of self.new).machine.config ≡ (line_of self.old).machine.config) }
        ensures no_link { IfErr result (λ fault. fault ≡ faults.Link → ⊥) }
        ensures inbox { IfErr result (λ fault. fault ≡ faults.Inbox → HasRisen (faults_of inbox.old) (faults_of inbox.new)) }
        ensures outbox { IfErr result (λ fault. fault ≡ faults.Outbox → HasFailed (known pass.old).faults (known pass.new).faults) }
        ensures changed { IfErr result (λ fault. (at : ℕ) → fault ≡ faults.Changed at → (at < length (known pass.new).seen.made) × (O.tells → ⊥)) }
        ensures broken { IfErr result (λ fault. fault ≡ faults.Broken → (is_broken inbox.new ≡ true) ⊎ HasFailed (known pass.new).opening.faults (known pass.new).faults) }
        ensures full { IfErr result (λ fault. (entries bytes : ℕ) → fault ≡ faults.Full entries bytes → (entries ≡ count_of inbox.new) × (bytes ≡ size_of inbox.new)) }
        ensures kind { SameKind inbox.old inbox.new }
        ensures never_falls { faults_of inbox.old ≤ faults_of inbox.new }
    {
        inbox.at(now);
        let taken = match self.take_frames(inbox, news, now) {
            Ok(taken) => taken,
            Err(fault) => return Err(fault),
        };
        self.took = taken > 0;
        self.close_frames(taken, now);
        self.serve_outbox(gate, pass, now, rt)
    }
}

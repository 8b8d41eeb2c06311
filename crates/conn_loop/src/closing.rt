//! Behind the frames of a turn: what the machine is told of what ends them.

ghost use Rattle.std.specs.Prelude.{◌≡◌, ◌++◌, ◌∷◌, [], ◌^◌, ◌<◌, ◌≤◌, length, true, None};
ghost use Rattle.sofh_frame.specs.Framing.{first_of};
ghost use Rattle.fixp_machine.specs.Machine.{front_of, run, turn_done};
ghost use Rattle.conn_turns.specs.Frames.{is_whole, is_bad, is_unframed, unframed_at, is_link_over};
ghost use Rattle.conn_turns.specs.Turns.{bad_calls, end_calls};
ghost use Rattle.conn_steps.specs.Agreeing.{IsInTurn};
ghost use Rattle.conn_loop.specs.Conn.{KeepsAll, most_in_turn, most_closed};

use crate::conn::Conn;
use sofh_frame::FirstFrame;

impl Conn {
    ghost use Rattle.conn_loop.specs.Conn.{line_of};

    /// Whether a whole frame stands at the front of what is held.
    pub(crate) fn holds_frame(&self) -> bool
        ensures { result ≡ is_whole (first_of (line_of self.now).held) }
    {
        match self.framer.peek() {
            FirstFrame::Frame { .. } => true,
            FirstFrame::Rest | FirstFrame::BadLength(_) | FirstFrame::BadEncoding(_) => false,
        }
    }

    /// Whether bytes stand there that no frame begins with.
    pub(crate) fn holds_bad(&self) -> bool
        ensures { result ≡ is_bad (first_of (line_of self.now).held) }
    {
        match self.framer.peek() {
            FirstFrame::BadLength(_) | FirstFrame::BadEncoding(_) => true,
            FirstFrame::Frame { .. } | FirstFrame::Rest => false,
        }
    }

    /// Tells the machine of bytes that no frame begins with, where they stand behind so many frames.
    #[tactic(auto, using(crate::proofs::Machine::bad_drained))]
    fn tell_bad(&mut self, taken: u64, now: u64)
        requires in_turn { IsInTurn (line_of self.old).machine now 0 (most_in_turn (line_of self.old)) }
        requires time { now < 2 ^ 44 }
        ensures told { line_of self.new ≡ record (line_of self.old) { machine = run (line_of self.old).machine (bad_calls now (unframed_at taken (line_of self.old))) } }
        ensures keeps { KeepsAll (line_of self.old).machine (line_of self.new).machine now }
    {
        if taken < u64::from(self.per_turn) && self.may_take() && self.holds_bad() {
            self.end.on_bad_frame(self.place, now);
        }
    }

    /// Tells the machine that the link has ended, where it has and no whole frame is left.
    #[tactic(auto, using(crate::proofs::Machine::link_keeps, crate::proofs::Machine::link_drained))]
    fn tell_end(&mut self)
        requires { (line_of self.old).machine.begun ≡ true }
        ensures told { line_of self.new ≡ record (line_of self.old) { machine = run (line_of self.old).machine (end_calls (is_link_over (line_of self.old))) } }
        ensures keeps { KeepsAll (line_of self.old).machine (line_of self.new).machine (line_of self.old).machine.moment }
    {
        if self.over && !self.holds_frame() {
            self.end.on_link_end();
        }
    }

    /// Behind the frames of a turn, of which so many were taken: tells the machine of bytes that no frame begins with, of the
    /// link's end, and of the turn's.
    pub(crate) fn close_frames(&mut self, taken: u64, now: u64)
        requires in_turn { IsInTurn (line_of self.old).machine now 0 (most_in_turn (line_of self.old)) }
        requires time { now < 2 ^ 44 }
        ensures closed { line_of self.new ≡ record (line_of self.old) { machine = run (line_of self.old).machine (bad_calls now (unframed_at taken (line_of self.old)) ++ (end_calls (is_link_over (line_of self.old)) ++ turn_done now ∷ [])) } }
        ensures begun { (line_of self.new).machine.begun ≡ true }
        ensures done { (line_of self.new).machine.pending ≡ None }
        ensures config { (line_of self.new).machine.config ≡ (line_of self.old).machine.config }
        ensures most { (line_of self.new).machine.most ≡ (line_of self.old).machine.most }
        ensures recorded { (line_of self.new).machine.facts.recorded ≡ (line_of self.old).machine.facts.recorded }
        ensures moment { (line_of self.new).machine.moment ≡ now }
        ensures drained { front_of (line_of self.new).machine ≡ None }
        ensures small { length (line_of self.new).machine.unsent ≤ most_closed (line_of self.old) }
        ensures told { (line_of self.new).machine.ending ≡ None → (line_of self.new).machine.untold ≡ [] }
    {
        self.tell_bad(taken, now);
        self.tell_end();
        self.end.turn_done(now);
    }
}

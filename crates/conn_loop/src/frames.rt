//! The frames of a turn: what is received, and what is taken of it.

ghost use Rattle.std.specs.Prelude.{◌≡◌, ℕ, ◌+◌, ◌*◌, ◌^◌, ◌<◌, ◌≤◌, true, false, [], length, Ok, Err, IfOk, IfErr, OnOk, IsTrue, IsFalse};
ghost use Rattle.sofh_frame.specs.Framing.{first_of};
ghost use Rattle.jr_kept.specs.Inbox.{faults_of};
ghost use Rattle.conn_turns.specs.News.{items_of};
ghost use Rattle.conn_turns.specs.Lines.{MayTake};
ghost use Rattle.conn_turns.specs.Frames.{is_whole, may_take, IsDone};
ghost use Rattle.conn_steps.specs.Settling.{SameKind};
ghost use Rattle.conn_steps.specs.Agreeing.{IsInTurn, Agrees, AgreesBut, KeepsOwn};
ghost use Rattle.conn_steps.specs.Taking.{TookFrame, RefusedFrame, GatheredFrames, TookFrames, CutFrames, Blames};
ghost use Rattle.conn_steps.specs.Ends.{intake, gathering_end, taking_end};

use crate::conn::Conn;
use conn_steps::{answer_frame, make_stable};
use conn_turns::{News, TurnFault};
use jr_dated::Journal;
use jr_kept::Inbox;
use sofh_frame::FirstFrame;

impl Conn {
    ghost use Rattle.conn_loop.specs.Conn.{line_of, gathered_by, most_in_turn};

    /// Whether a further frame may be taken: the connection has not ended, and no range began in this turn.
    pub(crate) fn may_take(&self) -> bool
        ensures value { result ≡ may_take (line_of self.now) }
        ensures may { IsTrue result → MayTake (line_of self.now) }
        ensures not { (count : ℕ) → IsFalse result → IsDone count (line_of self.now) }
    {
        let has_begun = self.end.serving().is_some() && !self.serves;
        self.end.ending().is_none() && !has_begun
    }

    /// Takes the frame at the front of what is held, if one stands there, and says whether one did. Its message, and those held that it lets
    /// in, are gathered.
    fn take_frame<J: Journal>(
        &mut self,
        inbox: &mut Inbox<J>,
        news: &mut News,
        now: u64,
    ) -> Result<bool, TurnFault>
        requires may { MayTake (line_of self.old) }
        requires in_turn { IsInTurn (line_of self.old).machine now 1 (most_in_turn (line_of self.old)) }
        requires time { now < 2 ^ 44 }
        requires place { (line_of self.old).place < 2 ^ 63 + 2 ^ 62 }
        requires agrees { AgreesBut (gathered_by self.old) (line_of self.old).machine inbox.old }
        ensures took { result ≡ Ok true → TookFrame now (gathering_end (line_of self.old) (intake inbox.old (items_of news.old) (gathered_by self.old))) (gathering_end (line_of self.new) (intake inbox.new (items_of news.new) (gathered_by self.new))) }
        ensures none { result ≡ Ok false → (is_whole (first_of (line_of self.new).held) ≡ false) × (line_of self.new ≡ line_of self.old) × (inbox.new ≡ inbox.old) × (items_of news.new ≡ items_of news.old) × (gathered_by self.new ≡ gathered_by self.old) }
        ensures refused { IfErr result (RefusedFrame now (gathering_end (line_of self.old) (intake inbox.old (items_of news.old) (gathered_by self.old))) (gathering_end (line_of self.new) (intake inbox.new (items_of news.new) (gathered_by self.new)))) }
        ensures in_turn { (frames bytes : ℕ) → IsInTurn (line_of self.old).machine now (frames + 1) bytes → result ≡ Ok true → IsInTurn (line_of self.new).machine now frames bytes }
        ensures place { result ≡ Ok true → (line_of self.new).place ≤ (line_of self.old).place + 16390 }
        ensures agrees { OnOk result (AgreesBut (gathered_by self.new) (line_of self.new).machine inbox.new) }
        ensures own { OnOk result (KeepsOwn (line_of self.old).machine (line_of self.new).machine) }
        ensures blames { IfErr result (Blames inbox.old inbox.new) }
        ensures kind { SameKind inbox.old inbox.new }
        ensures never_falls { faults_of inbox.old ≤ faults_of inbox.new }
    {
        let FirstFrame::Frame {
            order,
            message,
            size,
        } = self.framer.peek()
        else {
            return Ok(false);
        };
        if let Err(fault) = answer_frame(
            &mut self.end,
            &mut self.gathered,
            inbox,
            news,
            order,
            message,
            self.place,
            now,
        ) {
            return Err(fault);
        }
        self.framer.drop_front(size);
        self.place += size as u64;
        Ok(true)
    }

    /// Takes frames, as far as they go and no more than a turn takes, and says how many. The messages of the last of them may still be gathered.
    fn gather_frames<J: Journal>(
        &mut self,
        inbox: &mut Inbox<J>,
        news: &mut News,
        now: u64,
    ) -> Result<u64, TurnFault>
        requires in_turn { IsInTurn (line_of self.old).machine now (line_of self.old).per_turn (most_in_turn (line_of self.old)) }
        requires time { now < 2 ^ 44 }
        requires place { (line_of self.old).place < 2 ^ 63 }
        requires agrees { Agrees (line_of self.old).machine inbox.old }
        requires none { gathered_by self.old ≡ [] }
        ensures gathered { IfOk result (λ count. GatheredFrames now count (taking_end (line_of self.old) inbox.old (items_of news.old)) (gathering_end (line_of self.new) (intake inbox.new (items_of news.new) (gathered_by self.new)))) }
        ensures last { IfOk result (λ count. IsDone count (line_of self.new) × (count ≤ (line_of self.old).per_turn)) }
        ensures cut { IfErr result (CutFrames now (taking_end (line_of self.old) inbox.old (items_of news.old)) (taking_end (line_of self.new) inbox.new (items_of news.new))) }
        ensures in_turn { OnOk result (IsInTurn (line_of self.new).machine now 0 (most_in_turn (line_of self.old))) }
        ensures agrees { OnOk result (AgreesBut (gathered_by self.new) (line_of self.new).machine inbox.new) }
        ensures own { OnOk result (KeepsOwn (line_of self.old).machine (line_of self.new).machine) }
        ensures blames { IfErr result (Blames inbox.old inbox.new) }
        ensures kind { SameKind inbox.old inbox.new }
        ensures never_falls { faults_of inbox.old ≤ faults_of inbox.new }
    {
        let most = u64::from(self.per_turn);
        for taken in 0..most {
            if !self.may_take() {
                return Ok(taken);
            }
            match self.take_frame(inbox, news, now) {
                Ok(true) => {}
                Ok(false) => return Ok(taken),
                Err(fault) => return Err(fault),
            }
        }
        Ok(most)
    }

    /// Takes frames, as far as they go and no more than a turn takes, and says how many. The records of all are stable then, and what they tell is told.
    pub(crate) fn take_frames<J: Journal>(
        &mut self,
        inbox: &mut Inbox<J>,
        news: &mut News,
        now: u64,
    ) -> Result<u64, TurnFault>
        requires in_turn { IsInTurn (line_of self.old).machine now (line_of self.old).per_turn (most_in_turn (line_of self.old)) }
        requires time { now < 2 ^ 44 }
        requires place { (line_of self.old).place < 2 ^ 63 }
        requires agrees { Agrees (line_of self.old).machine inbox.old }
        ensures took { IfOk result (λ count. TookFrames now count (taking_end (line_of self.old) inbox.old (items_of news.old)) (taking_end (line_of self.new) inbox.new (items_of news.new))) }
        ensures last { IfOk result (λ count. IsDone count (line_of self.new) × (count ≤ (line_of self.old).per_turn)) }
        ensures cut { IfErr result (CutFrames now (taking_end (line_of self.old) inbox.old (items_of news.old)) (taking_end (line_of self.new) inbox.new (items_of news.new))) }
        ensures in_turn { OnOk result (IsInTurn (line_of self.new).machine now 0 (most_in_turn (line_of self.old))) }
        ensures agrees { OnOk result (Agrees (line_of self.new).machine inbox.new) }
        ensures own { OnOk result (KeepsOwn (line_of self.old).machine (line_of self.new).machine) }
        ensures blames { IfErr result (Blames inbox.old inbox.new) }
        ensures kind { SameKind inbox.old inbox.new }
        ensures never_falls { faults_of inbox.old ≤ faults_of inbox.new }
    {
        self.gathered.clear();
        let taken = match self.gather_frames(inbox, news, now) {
            Ok(taken) => taken,
            Err(fault) => return Err(fault),
        };
        if let Err(fault) = make_stable(&mut self.gathered, inbox, news) {
            return Err(fault);
        }
        Ok(taken)
    }
}

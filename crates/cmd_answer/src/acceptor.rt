//! The acceptor's session over recorded bytes. Each piece of input is framed, and its frames are handed to the session one by one, up to
//! 16 for one reservation of memory; what was written for it is pushed before the next piece is read.

ghost use Rattle.std.specs.Prelude.{◌≡◌, ℕ, ◌+◌, ◌<◌, ◌≤◌, ◌⊎◌, List, length, true, Option, IfOk, IfErr, OnOk, OnErr, Ok};
ghost use Rattle.sofh_frame.specs.Framing.{rest, first_of};
ghost use Rattle.fixp_shake.specs.declared.config.EndConfig.{EndConfig};
ghost use Rattle.cmd_answer.specs.Answer.{acceptor_of};
ghost use Rattle.cmd_answer.specs.Progress.{replies_limit};
ghost use Rattle.std.specs.Io.KnownBytes.{Appends, Consumes};
ghost use Rattle.gw_outside.specs.Faults.{HasRisen, TakesFront};
ghost use Rattle.cmd_answer.specs.Answer.{status_of, status_at_rest, status_after};
ghost use Rattle.cmd_config.specs.Settings.{IsInRange};
ghost use Rattle.cmd_base.specs.Causes.{NoneFell, IsCaused, conversation_counts};
ghost use Rattle.cmd_base.specs.Contents.{Content};
ghost use Rattle.cmd_base.specs.Order.{HasGiven};
ghost use Rattle.cmd_answer.specs.Promise.{Talks, IsIdle, AfterRound, KeepsPromise, IsConversationEnd, round_of};

use crate::frames::{answer_frame, open_end};
use cmd_base::{Bad, Status, begin};
use cmd_config::Settings;
use fixp_end::{End, EndConfig, Ending};
use gw_outside::{Failed, Sink, Source, push_all};
use sofh_frame::{FirstFrame, Framer, ROOM};
use std::alloc::{AllocError, Global};
use std::sync::Wait;

/// Room for the lines of one piece of input, in bytes: at most four for each byte of the piece.
const LINES: usize = 4 * ROOM;

/// How many frames are answered for one reservation of memory.
const BATCH: usize = 16;

/// The most bytes unsent with which a batch is begun.
const UNSENT: usize = 900_000;

/// The acceptor, the bytes of its input that are not answered yet, and what it has to push.
#[derive(Drop)]
pub struct Acceptor {
    /// The session; what it wrote and was not pushed is its output.
    pub end: End,
    /// The bytes read and not answered.
    pub framer: Framer,
    /// The lines not pushed.
    pub lines: Vec<u8>,
    /// The place in the input of the frame that is answered next, or of the one that ended the connection.
    pub place: u64,
}

/// What one step over the input did.
#[derive(Clone, Copy)]
pub enum Step {
    /// Frames were answered, and the connection goes on.
    Answered,
    /// There is less than a frame: more input is needed.
    Waits,
    /// There are bytes that no frame begins with.
    Broken,
    /// A frame was answered, and the connection ended.
    Ended,
}

impl Acceptor {
    ghost use Rattle.cmd_answer.specs.Progress.{IsNew, IsOpen, Leaves, Halts, Stands, AnsweredAll, IsEmptied};

    /// An acceptor whose connection has begun.
    fn new(alloc: Global, settings: Settings) -> Result<Acceptor, AllocError>
        requires { IsInRange settings }
        ensures { IfOk result (IsNew (acceptor_of settings)) }
    {
        Ok(Acceptor {
            end: open_end(alloc, settings)?,
            framer: Framer::new(alloc)?,
            lines: Vec::with_capacity(alloc, LINES)?,
            place: 0,
        })
    }

    /// Answers the frame at the front of the bytes that were read, if there is one.
    fn take_frame(&mut self) -> Result<Step, AllocError>
        requires open { IsOpen self.old }
        requires room { 0 < self.old.end.room }
        requires output { length self.old.end.unsent ≤ 1000000 }
        ensures left { IfOk result (λ step. Leaves step self.new) }
        ensures stands { OnOk result ((cfg : EndConfig) (read wire out : List ℕ) → Stands cfg read wire out self.old → Stands cfg read wire out self.new) }
        ensures bounded { result ≡ Ok Step.Broken → length self.new.end.unsent ≤ 1000000 }
        ensures less { result ≡ Ok Step.Answered → length self.new.framer.held < length self.old.framer.held }
        ensures room { result ≡ Ok Step.Answered → self.old.end.room ≤ self.new.end.room + 1 }
        ensures small { result ≡ Ok Step.Answered → length self.new.end.unsent ≤ length self.old.end.unsent + replies_limit 1 }
    {
        match self.framer.peek() {
            FirstFrame::Frame {
                order,
                message,
                size,
            } => {
                answer_frame(&mut self.end, &mut self.lines, order, message, self.place)?;
                self.framer.drop_front(size);
                match self.end.ending() {
                    Some(_) => Ok(Step::Ended),
                    None => {
                        self.place = self.place.saturating_add(size as u64);
                        Ok(Step::Answered)
                    }
                }
            }
            FirstFrame::Rest => Ok(Step::Waits),
            FirstFrame::BadLength(_) | FirstFrame::BadEncoding(_) => Ok(Step::Broken),
        }
    }

    /// Answers a batch of the frames that were read.
    fn take_batch(&mut self) -> Result<Step, AllocError>
        requires open { IsOpen self.old }
        requires output { length self.old.end.unsent ≤ UNSENT }
        ensures left { IfOk result (λ step. Leaves step self.new) }
        ensures stands { OnOk result ((cfg : EndConfig) (read wire out : List ℕ) → Stands cfg read wire out self.old → Stands cfg read wire out self.new) }
        ensures bounded { result ≡ Ok Step.Broken → length self.new.end.unsent ≤ 1000000 }
        ensures less { result ≡ Ok Step.Answered → length self.new.framer.held < length self.old.framer.held }
    {
        self.end.reserve()?;
        for _ in 0..BATCH {
            match self.take_frame()? {
                Step::Answered => {}
                step => return Ok(step),
            }
        }
        Ok(Step::Answered)
    }

    /// Answers the frames that were read, as far as they go, or until there is much to push.
    fn take_frames(&mut self) -> Result<Step, AllocError>
        requires open { IsOpen self.old }
        ensures left { IfOk result (λ step. Leaves step self.new) }
        ensures stands { OnOk result ((cfg : EndConfig) (read wire out : List ℕ) → Stands cfg read wire out self.old → Stands cfg read wire out self.new) }
        ensures bounded { result ≡ Ok Step.Broken → length self.new.end.unsent ≤ 1000000 }
    {
        while self.end.out().len() <= UNSENT {
            match self.take_batch()? {
                Step::Answered => {}
                step => return Ok(step),
            }
        }
        Ok(Step::Answered)
    }

    /// Answers what was read, also bytes that are no frame.
    fn answer_piece(&mut self) -> Result<Step, AllocError>
        requires open { IsOpen self.old }
        ensures halts { IfOk result (λ step. Halts step self.new) }
        ensures answered { IfOk result (λ step. (cfg : EndConfig) (read wire out : List ℕ) → Stands cfg read wire out self.old → AnsweredAll cfg read wire out self.new step) }
    {
        let step = self.take_frames()?;
        match step {
            Step::Broken => {
                self.end.windowed();
                self.end.on_bad_frame(self.place, 0);
                Ok(Step::Broken)
            }
            step => Ok(step),
        }
    }

    /// Pushes what was written for the last piece of input: the lines first, so that a record stands before the
    /// reply that promises it.
    fn push<K: Sink>(&mut self, wire: &mut K, out: &mut K) -> Result<(), Failed>
        ensures wire { OnOk result (Appends (K.taken wire.old) (K.taken wire.new) self.old.end.unsent) }
        ensures out { OnOk result (Appends (K.taken out.old) (K.taken out.new) self.old.lines.items) }
        ensures emptied { OnOk result (IsEmptied self.old self.new) }
        ensures wire_front { OnErr result (TakesFront (K.taken wire.old) (K.taken wire.new) self.old.end.unsent) }
        ensures out_front { OnErr result (TakesFront (K.taken out.old) (K.taken out.new) self.old.lines.items) }
        ensures counted { (K.faults wire.old ≤ K.faults wire.new) × (K.faults out.old ≤ K.faults out.new) }
        ensures cause { OnErr result (HasRisen (K.faults wire.old) (K.faults wire.new) ⊎ HasRisen (K.faults out.old) (K.faults out.new)) }
        ensures records_first { OnErr result ((wire.new ≡ wire.old) ⊎ Appends (K.taken out.old) (K.taken out.new) self.old.lines.items) }
    {
        push_all(out, self.lines.as_slice())?;
        push_all(wire, self.end.out())?;
        self.end.taken(self.end.out().len());
        self.lines.clear();
        Ok(())
    }

    /// The input has ended: behind a frame, or inside one.
    fn finish(&self) -> Result<bool, Status>
        ensures { result ≡ round_of (status_at_rest self.now.place self.now.framer.held) }
    {
        if self.framer.is_empty() {
            Ok(false)
        } else {
            Err(Status::Message(Bad::Cut { at: self.place }))
        }
    }

    /// What the end of the connection says of the conversation.
    fn verdict(&self) -> Result<bool, Status>
        ensures { result ≡ round_of (status_after self.now.place self.now.end.ending) }
    {
        match self.end.ending() {
            Some(ending) => as_round(status_of(self.place, ending)),
            None => Ok(false),
        }
    }

    /// Reads a piece of input. `Ok(false)` is the end.
    fn read<S: Source>(&mut self, input: &mut S) -> Result<bool, Status>
        requires idle { IsIdle self.old }
        requires waits { first_of self.old.framer.held ≡ rest }
        ensures idle { result ≡ Ok true → IsIdle self.new }
        ensures after { (cfg : EndConfig) (before : Content) (wire out : Option (List ℕ)) →
            Talks cfg before (record { input = S.left input.old; wire = wire; out = out }) self.old →
            AfterRound cfg before (record { input = S.left input.new; wire = wire; out = out }) self.new result }
        ensures given { result ≡ Ok true → HasGiven (S.left input.old) (S.left input.new) }
        ensures consumed { (bytes : List ℕ) × Consumes (S.left input.old) (S.left input.new) bytes }
        ensures counted { S.faults input.old ≤ S.faults input.new }
        ensures ends { IfErr result IsConversationEnd }
        ensures cause { (wire out wired written : ℕ) → IfErr result (IsCaused (conversation_counts (S.faults input.old) wire out) (conversation_counts (S.faults input.new) wired written)) }
    {
        let Ok(count) = input.pull(self.framer.room()) else {
            return Err(Status::InputFault);
        };
        if count == 0 {
            return self.finish();
        }
        self.framer.filled(count);
        Ok(true)
    }

    /// Answers what was read, pushes what was written for it, and reads a piece of input where less than a frame is left.
    /// `Ok(false)` is the end.
    fn round<S: Source, K: Sink>(
        &mut self,
        input: &mut S,
        wire: &mut K,
        out: &mut K,
    ) -> Result<bool, Status>
        requires { IsIdle self.old }
        ensures idle { result ≡ Ok true → IsIdle self.new }
        ensures after { (cfg : EndConfig) (before : Content) →
            Talks cfg before (record { input = S.left input.old; wire = K.taken wire.old; out = K.taken out.old }) self.old →
            AfterRound cfg before (record { input = S.left input.new; wire = K.taken wire.new; out = K.taken out.new }) self.new result }
        ensures consumed { (bytes : List ℕ) × Consumes (S.left input.old) (S.left input.new) bytes }
        ensures none_fell { NoneFell (conversation_counts (S.faults input.old) (K.faults wire.old) (K.faults out.old)) (conversation_counts (S.faults input.new) (K.faults wire.new) (K.faults out.new)) }
        ensures ends { IfErr result IsConversationEnd }
        ensures cause { IfErr result (IsCaused (conversation_counts (S.faults input.old) (K.faults wire.old) (K.faults out.old)) (conversation_counts (S.faults input.new) (K.faults wire.new) (K.faults out.new))) }
    {
        let Ok(step) = self.answer_piece() else {
            return Err(Status::Memory);
        };
        let Ok(()) = self.push(wire, out) else {
            return Err(Status::OutputFault);
        };
        match step {
            Step::Answered => Ok(true),
            Step::Waits => self.read(input),
            Step::Broken | Step::Ended => self.verdict(),
        }
    }
}

/// The status of a connection that ended so at a place of the input.
fn status_of(place: u64, ending: Ending) -> Status
    ensures { result ≡ status_of place ending }
{
    match ending {
        Ending::Finished
        | Ending::PeerTerminated { .. }
        | Ending::LinkEnded
        | Ending::Rejected { .. } => Status::Done,
        Ending::Violation(violation) => Status::Message(Bad::Session {
            at: place,
            violation,
        }),
    }
}

/// A status as the answer of a round.
fn as_round(status: Status) -> Result<bool, Status>
    ensures { result ≡ round_of status }
{
    match status {
        Status::Done => Ok(false),
        status => Err(status),
    }
}

/// Answers a recorded client: reads the input to its end, or to the end of the connection. The outputs are begun once a piece
/// of the input was read: where that fails, they are left as they are.
pub fn converse<R: Wait, S: Source, K: Sink>(
    rt: &R,
    alloc: Global,
    settings: Settings,
    input: &mut S,
    wire: &mut K,
    out: &mut K,
) -> Status
    requires { IsInRange settings }
    ensures promise { KeepsPromise (acceptor_of settings)
        (record { input = S.left input.old; wire = K.taken wire.old; out = K.taken out.old })
        (record { input = S.left input.new; wire = K.taken wire.new; out = K.taken out.new }) result }
    ensures spared { result ≡ Status.InputFault → ((wire.new ≡ wire.old) × (out.new ≡ out.old)) ⊎ HasGiven (S.left input.old) (S.left input.new) }
    ensures ends { IsConversationEnd result }
    ensures none_fell { NoneFell (conversation_counts (S.faults input.old) (K.faults wire.old) (K.faults out.old)) (conversation_counts (S.faults input.new) (K.faults wire.new) (K.faults out.new)) }
    ensures cause { IsCaused (conversation_counts (S.faults input.old) (K.faults wire.old) (K.faults out.old)) (conversation_counts (S.faults input.new) (K.faults wire.new) (K.faults out.new)) result }
{
    let Ok(mut acceptor) = Acceptor::new(alloc, settings) else {
        return Status::Memory;
    };
    let more = match acceptor.read(input) {
        Ok(more) => more,
        Err(status) => return status,
    };
    let Ok(()) = begin(out) else {
        return Status::OutputFault;
    };
    let Ok(()) = begin(wire) else {
        return Status::OutputFault;
    };
    if !more {
        return Status::Done;
    }
    for _ in rt.forever() {
        match acceptor.round(input, wire, out) {
            Ok(true) => {}
            Ok(false) => return Status::Done,
            Err(status) => return status,
        }
    }
    unreachable!()
}

//! The sessions over recorded bytes. Each piece of input is framed, and its frames are given to their sessions one by one; what was written
//! for it is pushed before the next piece is read.

ghost use Rattle.std.specs.Prelude.{◌≡◌, ℕ, ◌<◌, ◌≤◌, ◌⊎◌, List, [], length, Option, IfOk, IfErr, OnOk, OnErr, Ok, Err, true, false};
ghost use Rattle.std.specs.Io.KnownBytes.{Appends, Consumes};
ghost use Rattle.sofh_frame.specs.Framing.{rest, first_of};
ghost use Rattle.gw_outside.specs.Faults.{HasRisen, TakesFront};
ghost use Rattle.cmd_config.specs.declared.settings.Settings.{Settings};
ghost use Rattle.cmd_base.specs.Contents.{Content};
ghost use Rattle.cmd_base.specs.Order.{HasGiven};
ghost use Rattle.cmd_muxanswer.specs.Sessions.{AreSessions};
ghost use Rattle.cmd_muxanswer.specs.Promise.{IsEnd};
ghost use Rattle.cmd_muxanswer.specs.Progress.{AfterRound, IsEmptied, IsIdle, IsOpen, KeepsPromise, Leaves, Stands, StandsBefore, Talks};

use crate::outcome::Outcome;
use crate::router::Router;
use crate::sessions::Sessions;
use crate::unrouted::Unrouted;
use cmd_base::begin;
use gw_outside::{Failed, Sink, Source, push_all};
use sofh_frame::{FirstFrame, Framer};
use std::alloc::{AllocError, Global};
use std::sync::Wait;

/// How many bytes may wait to be pushed when a further frame is given out.
const PIECE: usize = 65_536;

/// The bytes that were read and not given out yet, and the sessions.
#[derive(Drop)]
pub(crate) struct Conversation {
    pub(crate) framer: Framer,
    pub(crate) router: Router,
    /// The place in the input of the frame that is given out next.
    pub(crate) place: u64,
}

/// What one step over the input did.
#[derive(Clone, Copy)]
pub(crate) enum Step {
    /// Frames were given out, and more may follow.
    Took,
    /// There is less than a frame: more input is needed.
    Waits,
    /// No session can be given what comes next.
    Stops(Unrouted),
}

impl Conversation {
    /// A conversation that has read nothing.
    ///
    /// # Errors
    /// Want of memory.
    fn new(alloc: Global, sessions: Sessions) -> Result<Conversation, AllocError>
        requires { AreSessions sessions }
        ensures idle { IfOk result IsIdle }
        ensures held { IfOk result (λ c. c.framer.held ≡ []) }
        ensures stands { IfOk result (λ c. Stands sessions [] [] [] c) }
    {
        Ok(Conversation {
            framer: Framer::new(alloc)?,
            router: Router::new(alloc, sessions)?,
            place: 0,
        })
    }

    /// Gives out the frame at the front of the bytes that were read, if there is one.
    fn take_frame(&mut self) -> Result<Step, AllocError>
        requires open { IsOpen self.old.router }
        ensures open { OnOk result (IsOpen self.new.router) }
        ensures leaves { IfOk result (λ step. (sessions : List Settings) (read wire out : List ℕ) → Stands sessions read wire out self.old → Leaves step sessions read wire out self.new) }
        ensures waits { result ≡ Ok Step.Waits → first_of self.new.framer.held ≡ rest }
        ensures less { result ≡ Ok Step.Took → length self.new.framer.held < length self.old.framer.held }
    {
        match self.framer.peek() {
            FirstFrame::Frame {
                order,
                message,
                size,
            } => match self.router.route(order, message)? {
                Some(why) => Ok(Step::Stops(why)),
                None => {
                    self.framer.drop_front(size);
                    self.place = self.place.saturating_add(size as u64);
                    Ok(Step::Took)
                }
            },
            FirstFrame::Rest => Ok(Step::Waits),
            FirstFrame::BadLength(_) => Ok(Step::Stops(Unrouted::BadFrame)),
            FirstFrame::BadEncoding(_) => Ok(Step::Stops(Unrouted::BadFrame)),
        }
    }

    /// Whether little waits to be pushed.
    fn is_light(&self) -> bool {
        self.router.written.wire.bytes.len() <= PIECE && self.router.written.lines.len() <= PIECE
    }

    /// Gives out the frames that were read, as far as they go, or until there is much to push.
    fn take_frames(&mut self) -> Result<Step, AllocError>
        requires open { IsOpen self.old.router }
        ensures open { OnOk result (IsOpen self.new.router) }
        ensures leaves { IfOk result (λ step. (sessions : List Settings) (read wire out : List ℕ) → Stands sessions read wire out self.old → Leaves step sessions read wire out self.new) }
        ensures waits { result ≡ Ok Step.Waits → first_of self.new.framer.held ≡ rest }
    {
        while self.is_light() {
            match self.take_frame()? {
                Step::Took => {}
                step => return Ok(step),
            }
        }
        Ok(Step::Took)
    }

    /// Pushes what was written: the lines first, so that a record stands before the reply that promises it.
    fn push<K: Sink>(&mut self, wire: &mut K, out: &mut K) -> Result<(), Failed>
        ensures wire { OnOk result (Appends (K.taken wire.old) (K.taken wire.new) self.old.router.written.wire.bytes.items) }
        ensures out { OnOk result (Appends (K.taken out.old) (K.taken out.new) self.old.router.written.lines.items) }
        ensures emptied { OnOk result (IsEmptied self.old self.new) }
        ensures wire_front { OnErr result (TakesFront (K.taken wire.old) (K.taken wire.new) self.old.router.written.wire.bytes.items) }
        ensures out_front { OnErr result (TakesFront (K.taken out.old) (K.taken out.new) self.old.router.written.lines.items) }
        ensures counted { (K.faults wire.old ≤ K.faults wire.new) × (K.faults out.old ≤ K.faults out.new) }
        ensures cause { OnErr result (HasRisen (K.faults wire.old) (K.faults wire.new) ⊎ HasRisen (K.faults out.old) (K.faults out.new)) }
        ensures records_first { OnErr result ((wire.new ≡ wire.old) ⊎ Appends (K.taken out.old) (K.taken out.new) self.old.router.written.lines.items) }
    {
        push_all(out, self.router.written.lines.as_slice())?;
        push_all(wire, self.router.written.wire.bytes.as_slice())?;
        self.router.written.lines.clear();
        self.router.written.wire.bytes.clear();
        Ok(())
    }

    /// The input has ended: behind a frame, or inside one.
    fn finish(&self) -> Result<bool, Outcome>
        ensures whole { self.now.framer.held ≡ [] → result ≡ Ok false }
        ensures cut { (self.now.framer.held ≡ [] → ⊥) → result ≡ Err (Outcome.Cut self.now.place) }
    {
        if self.framer.is_empty() {
            Ok(false)
        } else {
            Err(Outcome::Cut { at: self.place })
        }
    }

    /// Reads a piece of input. `Ok(false)` is the end.
    ///
    /// # Errors
    /// The outcome of the run, which has ended.
    fn read<S: Source>(&mut self, input: &mut S) -> Result<bool, Outcome>
        requires idle { IsIdle self.old }
        requires waits { first_of self.old.framer.held ≡ rest }
        ensures idle { result ≡ Ok true → IsIdle self.new }
        ensures after { (sessions : List Settings) (before : Content) (wire out : Option (List ℕ)) →
            Talks sessions before (record { input = S.left input.old; wire = wire; out = out }) self.old →
            AfterRound sessions before (record { input = S.left input.new; wire = wire; out = out }) self.new result }
        ensures given { result ≡ Ok true → HasGiven (S.left input.old) (S.left input.new) }
        ensures consumed { (bytes : List ℕ) × Consumes (S.left input.old) (S.left input.new) bytes }
        ensures counted { S.faults input.old ≤ S.faults input.new }
        ensures ends { IfErr result IsEnd }
        ensures unread { result ≡ Err Outcome.InputFault → HasRisen (S.faults input.old) (S.faults input.new) }
        ensures written { (result ≡ Err Outcome.OutputFault) → ⊥ }
    {
        let Ok(count) = input.pull(self.framer.room()) else {
            return Err(Outcome::InputFault);
        };
        if count == 0 {
            return self.finish();
        }
        self.framer.filled(count);
        Ok(true)
    }

    /// Gives out what was read, pushes what was written for it, and reads a piece of input where less than a frame is left. `Ok(false)` is
    /// the end.
    ///
    /// # Errors
    /// The outcome of the run, which has ended.
    fn round<S: Source, K: Sink>(
        &mut self,
        input: &mut S,
        wire: &mut K,
        out: &mut K,
    ) -> Result<bool, Outcome>
        requires { IsIdle self.old }
        ensures idle { result ≡ Ok true → IsIdle self.new }
        ensures after { (sessions : List Settings) (before : Content) →
            Talks sessions before (record { input = S.left input.old; wire = K.taken wire.old; out = K.taken out.old }) self.old →
            AfterRound sessions before (record { input = S.left input.new; wire = K.taken wire.new; out = K.taken out.new }) self.new result }
        ensures consumed { (bytes : List ℕ) × Consumes (S.left input.old) (S.left input.new) bytes }
        ensures never_falls { (S.faults input.old ≤ S.faults input.new) × (K.faults wire.old ≤ K.faults wire.new) × (K.faults out.old ≤ K.faults out.new) }
        ensures ends { IfErr result IsEnd }
        ensures unread { result ≡ Err Outcome.InputFault → HasRisen (S.faults input.old) (S.faults input.new) }
        ensures unwritten { result ≡ Err Outcome.OutputFault → HasRisen (K.faults wire.old) (K.faults wire.new) ⊎ HasRisen (K.faults out.old) (K.faults out.new) }
    {
        let Ok(step) = self.take_frames() else {
            return Err(Outcome::Memory);
        };
        let Ok(()) = self.push(wire, out) else {
            return Err(Outcome::OutputFault);
        };
        match step {
            Step::Took => Ok(true),
            Step::Waits => self.read(input),
            Step::Stops(why) => Err(Outcome::Mux {
                at: self.place,
                why,
            }),
        }
    }
}

/// Answers a recorded client of several sessions: reads the input to its end, or to the first frame that no session can be given. The outputs
/// are begun once a piece of the input was read: where that fails, they are left as they are.
pub(crate) fn converse<R: Wait, S: Source, K: Sink>(
    rt: &R,
    alloc: Global,
    sessions: Sessions,
    input: &mut S,
    wire: &mut K,
    out: &mut K,
) -> Outcome
    requires { AreSessions sessions }
    ensures promise { KeepsPromise sessions
        (record { input = S.left input.old; wire = K.taken wire.old; out = K.taken out.old })
        (record { input = S.left input.new; wire = K.taken wire.new; out = K.taken out.new }) result }
    ensures spared { result ≡ Outcome.InputFault → ((wire.new ≡ wire.old) × (out.new ≡ out.old)) ⊎ HasGiven (S.left input.old) (S.left input.new) }
    ensures ends { IsEnd result }
    ensures never_falls { (S.faults input.old ≤ S.faults input.new) × (K.faults wire.old ≤ K.faults wire.new) × (K.faults out.old ≤ K.faults out.new) }
    ensures unread { result ≡ Outcome.InputFault → HasRisen (S.faults input.old) (S.faults input.new) }
    ensures unwritten { result ≡ Outcome.OutputFault → HasRisen (K.faults wire.old) (K.faults wire.new) ⊎ HasRisen (K.faults out.old) (K.faults out.new) }
{
    let Ok(mut conversation) = Conversation::new(alloc, sessions) else {
        return Outcome::Memory;
    };
    let more = match conversation.read(input) {
        Ok(more) => more,
        Err(outcome) => return outcome,
    };
    let Ok(()) = begin(out) else {
        return Outcome::OutputFault;
    };
    let Ok(()) = begin(wire) else {
        return Outcome::OutputFault;
    };
    if !more {
        return Outcome::Done;
    }
    for _ in rt.forever() {
        match conversation.round(input, wire, out) {
            Ok(true) => {}
            Ok(false) => return Outcome::Done,
            Err(outcome) => return outcome,
        }
    }
    unreachable!()
}

//! What the connections of a life and its senders tell each other: a sender that was refused tells the connections to stop; and where
//! nothing is sent again, the connections let the senders' messages into the outbox, a few at a time. Relies on std's locks.

ghost use Rattle.std.specs.Prelude.{◌≡◌, ℕ, ◌+◌, ◌-◌, ◌<◌, ◌≤◌, true, false, IsTrue, IsFalse};
ghost use Rattle.conn_door.specs.Flows.{is_sent_again};

use fixp_end::{End, Flow, Phase};
use gate_staff::Door;
use jr_boxes::SubmitFault;
use std::marker::Model;
use std::sync::atomic::AtomicBool;
use std::sync::{Condvar, Mutex, Wait};

/// How many messages that no connection has begun to send may stand in the outbox, or be on their way there.
const PLACES: u64 = 64;

/// How far the connections are, and the senders.
#[derive(Drop)]
struct Progress {
    /// Whether a connection is established.
    established: bool,
    /// Whether no message is let in any more.
    shut: bool,
    /// The messages that the outbox had as the life opened, and those let in since.
    let_in: u64,
    /// The messages of the outbox that were sent or begun.
    sent: u64,
    ghost few: { let_in - sent ≤ 64 },
}

impl Progress {
    /// Lets one message in, where a connection is established and has a place for it. Answers whether its sender need wait no longer: it was
    /// let in, or none is any more.
    fn enter(&mut self) -> bool
        ensures in_ { IsTrue result → self.old.shut ≡ false → (self.old.established ≡ true) × (self.old.let_in - self.old.sent < 64) }
        ensures shut { self.new.shut ≡ self.old.shut }
        ensures waits { IsFalse result → self.new ≡ self.old }
    {
        if self.shut {
            return true;
        }
        if !self.established || self.let_in.saturating_sub(self.sent) >= PLACES {
            return false;
        }
        self.let_in = self.let_in.saturating_add(1);
        true
    }

    /// So many messages were sent or begun, and a connection is established or is not. What was sent stays so.
    fn reach(&mut self, sent: u64, established: bool)
        ensures reached { (self.new.established ≡ established) × (sent ≤ self.new.sent) × (self.old.sent ≤ self.new.sent) }
        ensures same { (self.new.shut ≡ self.old.shut) × (self.new.let_in ≡ self.old.let_in) }
    {
        self.established = established;
        self.sent = self.sent.max(sent);
    }
}

/// What the two sides of a life tell each other.
#[derive(Drop)]
pub struct Signals {
    /// Set where a sender or the Finish was refused: the connections are to stop.
    stop: AtomicBool,
    /// Whether all messages are let in at once.
    at_once: bool,
    progress: Mutex<Progress>,
    moved: Condvar,
}

/// Contracts see of it whether all messages are let in at once. What one side tells is no fact of the other.
impl Model for Signals {
    ghost use Rattle.std.specs.Prelude.{Bool};

    ghost Value = { Bool };

    ghost view = { λ s. s.at_once };
}

/// Whether what is lost on the way is sent again.
fn is_sent_again(flow: Flow) -> bool
    ensures { result ≡ is_sent_again flow }
{
    match flow {
        Flow::Recoverable | Flow::None => true,
        Flow::Idempotent | Flow::Unsequenced => false,
    }
}

impl Signals {
    /// The signals of a life that opens with this end. Where its own flow is sent again, all messages are let in at once.
    pub fn new(end: &End) -> Signals
        ensures { result ≡ is_sent_again end.now.config.own_flow }
    {
        let sent = end.sent();
        Signals {
            stop: AtomicBool::new(false),
            at_once: is_sent_again(end.config().own_flow),
            progress: Mutex::new(begun(sent)),
            moved: Condvar::new(),
        }
    }

    /// The word that says whether the connections are to stop. Nothing unsets it.
    pub fn stop(&self) -> &AtomicBool {
        &self.stop
    }

    /// Whether all messages are let in at once.
    pub(crate) fn is_open(&self) -> bool
        ensures { result ≡ self.now }
    {
        self.at_once
    }

    /// A turn was made, behind which the end stands so.
    pub fn turned<R: Wait>(&self, end: &End, rt: &R) {
        if !self.at_once {
            let established = matches!(end.phase(), Phase::Established);
            self.progress.lock(rt).reach(end.sent(), established);
            self.moved.notify_all();
        }
    }

    /// The connection is over.
    pub fn lost<R: Wait>(&self, end: &End, rt: &R) {
        if !self.at_once {
            self.progress.lock(rt).reach(end.sent(), false);
        }
    }

    /// No message is let in any more: no connection follows, or none would help.
    pub fn shut<R: Wait>(&self, rt: &R) {
        if !self.at_once {
            self.progress.lock(rt).shut = true;
            self.moved.notify_all();
        }
    }
}

/// No connection is established yet, and the outbox has so many messages.
fn begun(sent: u64) -> Progress {
    Progress {
        established: false,
        shut: false,
        let_in: sent,
        sent,
    }
}

impl Door for Signals {
    ghost turns = { true };

    fn before<R: Wait>(&self, _sender: u16, _k: u64, rt: &R) -> bool {
        if self.at_once {
            return true;
        }
        let progress = self.progress.lock(rt);
        let progress = self.moved.wait_while(rt, progress, |p| !p.enter());
        !progress.shut
    }

    fn with_it<R: Wait>(&self, _sender: u16, _k: u64, rt: &R) -> bool {
        if self.at_once {
            return true;
        }
        let mut progress = self.progress.lock(rt);
        !progress.shut && progress.enter()
    }

    fn refused<R: Wait>(&self, fault: SubmitFault, rt: &R) {
        // A closed outbox has all that it is to have; any other refusal ends the life, and nobody waits for it.
        if !matches!(fault, SubmitFault::Closed) {
            self.shut(rt);
        }
    }
}

//! An end whose peer keeps no rules, and what is wrong with what it does, by plain rules: what it applies came under the number that its
//! inbox awaits, and is held exactly where it came at most 256 past that; it asks for what is missing, once; what it writes stands in
//! its outbox under the number that it told; and it goes back in its own flow at a handshake alone.

ghost use Rattle.std.specs.Prelude.{◌≤◌, length};

use crate::hostile::peer::Peer;
use cases_made::{ToldEnd, is_application, session_in};
use cases_words::Chance;
use fixp_end::{Act, Phase};
use fixp_msgs::{Counter, RetransmitRequest, SessionMsg};
use fixp_shake::is_established;
use jr_kept::Stable;
use sbe_prim::Order;
use sofh_frame::{FirstFrame, next};
use std::alloc::{AllocError, Global};

/// How far past the number that the inbox awaits a message is held.
const REACH: u64 = 256;

/// More frames than are written between two looks at them.
const FRAMES: u64 = 16;

/// How many entries the outbox has.
const ENTRIES: u64 = 10;

/// An application message that came on this connection, and is to be held.
#[derive(Clone, Copy)]
struct Came {
    number: u64,
    template: u8,
}

/// What a session showed.
#[derive(Clone, Copy)]
pub struct Shown {
    /// How many messages were applied that had been held.
    pub held: u64,
    /// How many requests for a retransmission were written.
    pub requests: u64,
    /// How often the end went back in its own flow.
    pub returns: u64,
    /// What was wrong first.
    pub fault: Option<&'static str>,
}

/// An end in a connection, its peer, and what came and was told on this connection.
#[derive(Drop)]
pub struct Judged<'a> {
    alloc: Global,
    driven: ToldEnd,
    entries: &'a [Stable],
    peer: Peer,
    /// The template of the peer's part of the handshake.
    answer: u8,
    /// The numbers of what the peer sends.
    heard: Counter,
    /// The numbers of what the end writes.
    told: Counter,
    came: Vec<Came>,
    /// Whether a request is open, and whether its retransmission has begun.
    is_open: bool,
    is_coming: bool,
    pub shown: Shown,
}

/// The template of a message, where that is below 256.
fn template_of(message: &[u8]) -> u8 {
    match message {
        [_, _, template, ..] => *template,
        _ => 0,
    }
}

/// The payload of an application message of this template.
fn payload_of(template: u8) -> [u8; 10] {
    [0xEB, 0x50, 0, 0, template, 0, 0x64, 0, 1, 0]
}

/// One more.
fn count(counted: &mut u64) {
    *counted = counted.saturating_add(1);
}

impl<'a> Judged<'a> {
    /// An end in its first connection, whose peer's part of the handshake has this template, and whose handshake is of this version.
    pub fn new(
        alloc: Global,
        driven: ToldEnd,
        entries: &'a [Stable],
        answer: u8,
        version: u8,
    ) -> Judged<'a> {
        Judged {
            alloc,
            driven,
            entries,
            peer: Peer::new(version),
            answer,
            heard: Counter::new(),
            told: Counter::new(),
            came: Vec::new(alloc),
            is_open: false,
            is_coming: false,
            shown: Shown {
                held: 0,
                requests: 0,
                returns: 0,
                fault: None,
            },
        }
    }

    /// Something is wrong, unless it holds.
    fn demand(&mut self, holds: bool, what: &'static str) {
        if !holds {
            self.shown.fault = self.shown.fault.or(Some(what));
        }
    }

    /// The template of the message that is to be held under the number that the inbox awaits.
    fn awaited(&self) -> Option<u8> {
        for came in self.came.as_slice() {
            if came.number == self.peer.awaited {
                return Some(came.template);
            }
        }
        None
    }

    /// A message of the peer's is applied under this number.
    fn apply(&mut self, number: u64) {
        self.demand(number == self.peer.awaited, "a number that was not awaited");
        self.peer.awaited = self.peer.awaited.saturating_add(1);
    }

    /// The number of the held message that the inbox awaits, and whether it is the one that came.
    fn found(&self) -> Option<(u64, bool)> {
        let (number, payload) = self.driven.held()?;
        let is_due = match self.awaited() {
            Some(template) => payload == &payload_of(template)[..],
            None => false,
        };
        Some((number, is_due))
    }

    /// Applies the held message that the inbox awaits; is there one?
    fn apply_held(&mut self) -> bool {
        let Some((number, is_due)) = self.found() else {
            let is_due = self.awaited().is_some();
            self.demand(!is_due, "a message that is not held");
            return false;
        };
        self.demand(is_due, "a held message that did not come so");
        self.apply(number);
        count(&mut self.shown.held);
        self.driven.held_done();
        true
    }

    /// Applies the held messages that the inbox awaits.
    fn drain(&mut self) {
        for _ in 0..=REACH {
            if !self.apply_held() {
                return;
            }
        }
    }

    /// What came of an application message of this implied number.
    fn settle(&mut self, act: Act, number: Option<u64>, message: &[u8]) -> Result<(), AllocError> {
        match (act, number) {
            (Act::Apply { number: applied }, _) => {
                self.demand(number == Some(applied), "a number that was not implied");
                self.apply(applied);
            }
            (Act::Nothing, Some(number)) => {
                let past = number.saturating_sub(self.peer.awaited);
                if (1..=REACH).contains(&past) {
                    let template = template_of(message);
                    self.came.push(Came { number, template })?;
                }
            }
            _ => {}
        }
        Ok(())
    }

    /// The request that is open, behind a message that was taken.
    fn follow(&mut self, said: &SessionMsg<'_>) {
        match said {
            SessionMsg::Retransmission(_) => self.is_coming = true,
            SessionMsg::Sequence(_) if self.is_coming => {
                self.is_coming = false;
                self.is_open = false;
                self.peer.asked = 0;
            }
            _ => {}
        }
    }

    /// The end asks for messages.
    fn ask(&mut self, m: &RetransmitRequest) {
        let count_asked = u64::from(m.count);
        let last = m.from_seq.saturating_add(count_asked);
        self.demand(!self.is_open, "a request while one is open");
        self.demand(
            m.from_seq == self.peer.awaited,
            "a request from another number",
        );
        self.demand((1..=REACH).contains(&count_asked), "a request of too many");
        self.demand(
            last <= self.peer.live,
            "a request for what was not announced",
        );
        self.is_open = true;
        self.peer.asked = count_asked;
        self.peer.asked_from = m.from_seq;
        count(&mut self.shown.requests);
    }

    /// The end wrote a frame with this message.
    fn judge_frame(&mut self, order: Order, message: &[u8]) {
        if message.len() < 8 {
            return;
        }
        let number = self.told.see(order, message);
        if is_application(order, message) {
            let entry = u64::from(template_of(message));
            self.demand(number == Some(entry), "an entry under another number");
        }
        if let Some(SessionMsg::RetransmitRequest(m)) = session_in(order, message) {
            self.ask(&m);
        }
    }

    /// Judges the first of some frames that the end wrote, and answers the others.
    fn judge_first<'b>(&mut self, bytes: &'b [u8]) -> &'b [u8] {
        let FirstFrame::Frame {
            order,
            message,
            size,
        } = next(bytes)
        else {
            self.demand(bytes.is_empty(), "bytes that are no frame");
            return &[];
        };
        self.judge_frame(order, message);
        match bytes.split_at_checked(size) {
            Some((_, behind)) => behind,
            None => &[],
        }
    }

    /// The link takes what the end wrote, and it is judged.
    fn take(&mut self) -> Result<(), AllocError> {
        let mut written = Vec::new(self.alloc);
        written.extend_from_slice(self.driven.out())?;
        self.driven.take();
        let mut rest = written.as_slice();
        for _ in 0..FRAMES {
            rest = self.judge_first(rest);
        }
        Ok(())
    }

    /// The number that the peer's message implies: none where it is a handshake's behind the handshake, which is not taken.
    fn number(&mut self, message: &[u8], was_established: bool) -> Option<u64>
        requires { 8 ≤ length message.now }
    {
        let is_handshake = matches!(
            session_in(Order::Little, message),
            Some(SessionMsg::Establish(_) | SessionMsg::EstablishmentAck(_))
        );
        if is_handshake && was_established {
            return None;
        }
        self.heard.see(Order::Little, message)
    }

    /// The end hears a message.
    fn hear(&mut self, message: &[u8]) -> Result<(), AllocError> {
        if !(8..=16384).contains(&message.len()) {
            return Ok(());
        }
        let (sent, was_established) = (self.driven.sent(), is_established(self.driven.phase()));
        let Some((act, _)) = self.driven.act(Order::Little, message, 0)? else {
            return Ok(());
        };
        let number = self.number(message, was_established);
        if self.driven.ending().is_some() {
            self.came.clear();
        } else if was_established {
            self.settle(act, number, message)?;
            if let Some(said) = session_in(Order::Little, message) {
                self.follow(&said);
            }
        }
        let after = self.driven.sent();
        self.demand(
            after == sent || (after < sent && !was_established),
            "another number sent",
        );
        self.shown.returns = self.shown.returns.saturating_add(u64::from(after < sent));
        Ok(())
    }

    /// The end makes some of its own calls.
    fn call(&mut self, chance: &mut Chance) {
        if chance.once_in(3) {
            self.driven.turn_done();
            self.driven.send_live(self.entries);
        }
        for _ in 0..chance.below(3) {
            self.driven.send_again(self.entries);
        }
        if chance.once_in(50) {
            self.driven.closed(ENTRIES);
        }
        if chance.once_in(200) {
            self.driven.cut();
        }
    }

    /// The next connection begins.
    fn begin(&mut self) {
        self.driven.begin();
        self.heard = Counter::new();
        self.told = Counter::new();
        self.came.clear();
        self.is_open = false;
        self.is_coming = false;
        self.peer.left = None;
        self.peer.asked = 0;
        self.peer.own = self.driven.sent().saturating_add(1);
    }

    /// What the peer says next.
    fn next(&mut self, chance: &mut Chance) -> Result<Vec<u8>, AllocError> {
        match self.driven.phase() {
            Phase::Established | Phase::Closing => self.peer.say(self.alloc, chance),
            _ => self.peer.handshake(self.alloc, chance, self.answer),
        }
    }

    /// The peer sends a message, on the next connection where the last one has ended; the end hears it, and makes calls of its own.
    ///
    /// # Errors
    /// Want of memory.
    pub fn step(&mut self, chance: &mut Chance) -> Result<(), AllocError> {
        if self.driven.ending().is_some() {
            self.begin();
        }
        self.take()?;
        let message = self.next(chance)?;
        self.hear(message.as_slice())?;
        self.drain();
        self.take()?;
        self.call(chance);
        if self.driven.ending().is_some() {
            self.came.clear();
        }
        self.drain();
        self.take()
    }
}

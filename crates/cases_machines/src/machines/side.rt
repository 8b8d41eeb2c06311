//! One end of the session, which is driven turn by turn, and what it has settled of the messages of its peer.

ghost use Rattle.std.specs.Prelude.{◌≤◌, length};

use crate::machines::COUNT;
use crate::machines::line::{Line, Passage};
use cases_made::ToldEnd;
use fixp_end::{Act, EndState, Ending, Flow, Role};
use fixp_shake::is_absent;
use jr_kept::Stable;
use sbe_prim::Order;
use sofh_frame::{FirstFrame, next};
use std::alloc::{AllocError, Global};

/// How many frames a turn takes at most.
const FRAMES: u64 = 16;

/// What an end has settled of its peer's messages.
#[derive(Clone, Copy)]
pub enum Settled {
    /// This message was applied under this number.
    Applied { number: u64, message: [u8; 8] },
    /// So many numbers from this one on were skipped.
    Skipped { from: u64, count: u64 },
}

/// An end in a connection, and the records of its inbox.
#[derive(Drop)]
pub struct Side {
    driven: ToldEnd,
    own_flow: Flow,
    /// How many messages it sends live in a turn, at most.
    pace: u64,
    inbox: Vec<Settled>,
}

/// The first 8 bytes of a message, which is all of an entry's.
fn front(message: &[u8]) -> [u8; 8] {
    let mut front = [0; 8];
    if let Some((first, _)) = message.split_at_checked(8) {
        front.copy_from_slice(first);
    }
    front
}

/// The message of a payload, which begins with two bytes for its encoding.
fn message_of(payload: &[u8]) -> &[u8] {
    match payload.split_at_checked(2) {
        Some((_, message)) => message,
        None => payload,
    }
}

impl Side {
    /// An end of this version, of a new session, in its first connection. `pace` is how many messages it sends live in a turn, at most.
    pub fn new(
        alloc: Global,
        role: Role,
        own_flow: Flow,
        peer_flow: Flow,
        pace: u64,
        version: u16,
    ) -> Result<Side, AllocError> {
        let recorded = EndState {
            negotiated: false,
            inbox_next: 1,
            peer_last: None,
            sent: 0,
            finish: None,
        };
        let driven = ToldEnd::new(alloc, role, own_flow, peer_flow, recorded, 0, version)?;
        Ok(Side {
            driven,
            own_flow,
            pace,
            inbox: Vec::new(alloc),
        })
    }

    /// What it has settled, in order.
    pub fn inbox(&self) -> &[Settled] {
        self.inbox.as_slice()
    }

    /// How its connection ended, if it has.
    pub fn ending(&self) -> Option<Ending> {
        self.driven.ending()
    }

    /// The next connection begins, where one has ended.
    pub fn begin(&mut self) {
        self.driven.begin();
    }

    /// The connection is cut.
    pub fn cut(&mut self) {
        self.driven.cut();
    }

    /// The link takes everything that is written.
    pub fn send(&mut self, to: &mut Line) -> Result<(), AllocError> {
        to.put(self.driven.out())?;
        self.driven.take();
        Ok(())
    }

    /// One turn: the clock ticks, frames are taken, the outbox is served, and what is written is sent.
    pub fn turn(
        &mut self,
        entries: &[Stable],
        from: &mut Line,
        to: &mut Line,
        passage: &mut Passage,
    ) -> Result<(), AllocError> {
        let moment = self.driven.now().saturating_add(1);
        self.driven.tick(moment);
        self.take_frames(from, passage)?;
        if passage.is_seen_cut() {
            self.cut();
        }
        self.driven.turn_done();
        self.serve(entries);
        self.send(to)
    }

    /// Takes the frames that are under way, as far as they go and 16 at most.
    fn take_frames(&mut self, from: &mut Line, passage: &mut Passage) -> Result<(), AllocError> {
        for _ in 0..FRAMES {
            self.take_frame(from, passage)?;
        }
        Ok(())
    }

    /// Takes the first frame that is under way, where one may be taken.
    fn take_frame(&mut self, from: &mut Line, passage: &mut Passage) -> Result<(), AllocError> {
        if passage.is_cut() || self.driven.ending().is_some() || self.driven.is_serving() {
            return Ok(());
        }
        let FirstFrame::Frame {
            order,
            message,
            size,
        } = next(from.unread())
        else {
            return Ok(());
        };
        if (8..=16384).contains(&message.len()) {
            self.hear(order, message)?;
            passage.carry(order, message);
        }
        from.pass(size);
        Ok(())
    }

    /// Hears a message, and settles what it asks for.
    fn hear(&mut self, order: Order, message: &[u8]) -> Result<(), AllocError>
        requires header { 8 ≤ length message.now }
        requires most { length message.now ≤ 16384 }
    {
        match self.driven.act(order, message, 0)? {
            Some((act, _)) => {
                self.settle(act, message)?;
                self.apply_held()
            }
            None => Ok(()),
        }
    }

    /// Applies the held messages that the inbox awaits, one after another.
    fn apply_held(&mut self) -> Result<(), AllocError> {
        for _ in 0..COUNT {
            let Some((number, payload)) = self.driven.held() else {
                return Ok(());
            };
            let message = front(message_of(payload));
            self.inbox.push(Settled::Applied { number, message })?;
            self.driven.held_done();
        }
        Ok(())
    }

    /// Records what an act settles.
    fn settle(&mut self, act: Act, message: &[u8]) -> Result<(), AllocError> {
        match act {
            Act::Apply { number } => {
                let message = front(message);
                self.inbox.push(Settled::Applied { number, message })?;
            }
            Act::Skip { from, count } => self.inbox.push(Settled::Skipped { from, count })?,
            Act::Nothing
            | Act::Negotiated
            | Act::PeerFinished { .. }
            | Act::Told { .. }
            | Act::Ended => {}
        }
        Ok(())
    }

    /// Sends again what was asked for, then what was not sent yet, and tells the finish.
    fn serve(&mut self, entries: &[Stable]) {
        for _ in 0..COUNT {
            self.driven.send_again(entries);
        }
        for _ in 0..self.pace {
            self.driven.send_live(entries);
        }
        if !is_absent(self.own_flow) {
            self.driven.closed(COUNT);
        }
    }
}

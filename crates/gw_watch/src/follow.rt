//! Follows the bytes that go one way over a connection, from frame to frame (Simple Open Framing Header). Only the header of
//! an application message is looked at; the bytes behind it are counted and not copied.

use crate::ear::{Ear, Heard};
use fixp_msgs::{FrameKind, SessionMsg, kind, read};
use sofh_frame::Order;
use std::alloc::Global;

/// The size of a frame's header and a message's header together, in bytes.
const HEAD: usize = 14;

/// The size of the largest frame in bytes.
const MOST: usize = 16_390;

/// The encoding type of SBE 1.0 with little-endian numbers.
const LITTLE_ENDIAN: [u8; 2] = [0xEB, 0x50];

/// Which way bytes go.
#[derive(Clone, Copy)]
pub(crate) enum Way {
    In,
    Out,
}

impl Way {
    /// A message of the session that goes this way.
    fn session(self, message: SessionMsg<'_>) -> Heard<'_> {
        match self {
            Way::In => Heard::Came(message),
            Way::Out => Heard::Went(message),
        }
    }

    /// An application message that goes this way.
    fn application(self) -> Heard<'static> {
        match self {
            Way::In => Heard::MessageCame,
            Way::Out => Heard::MessageWent,
        }
    }

    /// That it is not followed any more; of what a peer writes that is not told.
    fn unseen(self) -> Option<Heard<'static>> {
        match self {
            Way::In => None,
            Way::Out => Some(Heard::WentUnseen),
        }
    }
}

/// How far the bytes of one way are followed.
#[derive(Drop)]
pub(crate) struct Follower {
    way: Way,
    /// The front of the frame that is under way; of an application message no more than its header.
    front: Vec<u8>,
    /// The size of the frame that is under way, once its header is there.
    size: usize,
    /// How many bytes of an application message are still to come.
    skipped: usize,
    /// Whether these are no frames any more, or there was no memory to follow them.
    is_lost: bool,
    /// Whether an EstablishmentAck went by.
    is_established: bool,
}

/// The size of the frame that begins so.
fn size_of(head: &[u8; HEAD]) -> usize {
    u32::from_be_bytes([head[0], head[1], head[2], head[3]]) as usize
}

/// Whether what begins so is a message of the session.
fn is_session(head: &[u8; HEAD]) -> bool {
    if [head[4], head[5]] != LITTLE_ENDIAN {
        return false;
    }
    let Some((_, message)) = head.split_first_chunk::<6>() else {
        return false;
    };
    message.len() >= 8 && matches!(kind(Order::Little, message), FrameKind::Session)
}

impl Follower {
    /// Follows one way of a new connection.
    pub(crate) fn new(alloc: Global, way: Way) -> Follower {
        Follower {
            way,
            front: Vec::new(alloc),
            size: 0,
            skipped: 0,
            is_lost: false,
            is_established: false,
        }
    }

    /// Whether an EstablishmentAck went by.
    pub(crate) fn is_established(&self) -> bool {
        self.is_established
    }

    /// Follows no further.
    fn lose<E: Ear>(&mut self, ear: &E) {
        self.is_lost = true;
        if let Some(unseen) = self.way.unseen() {
            ear.hear(unseen);
        }
    }

    /// Follows on over these bytes.
    pub(crate) fn follow<E: Ear>(&mut self, bytes: &[u8], ear: &E) {
        let mut rest = bytes;
        for _ in 0..u64::MAX {
            if rest.is_empty() || self.is_lost {
                return;
            }
            rest = self.take_some(rest, ear);
        }
    }

    /// How many bytes are awaited before there is something to look at.
    fn awaited(&self) -> usize {
        if self.skipped > 0 {
            return self.skipped;
        }
        let has = self.front.len();
        let wanted = if has < HEAD { HEAD } else { self.size };
        wanted.saturating_sub(has)
    }

    /// Takes as many bytes as are awaited, and gives those behind them.
    fn take_some<'b, E: Ear>(&mut self, bytes: &'b [u8], ear: &E) -> &'b [u8] {
        let count = self.awaited().min(bytes.len());
        let (taken, rest) = bytes.split_at(count);
        if self.skipped > 0 {
            self.skipped = self.skipped.saturating_sub(count);
        } else if count == 0 || self.front.extend_from_slice(taken).is_err() {
            self.lose(ear);
        } else {
            self.look(ear);
        }
        rest
    }

    /// Looks at the front of the frame where its header, or all of it, is there.
    fn look<E: Ear>(&mut self, ear: &E) {
        if self.front.len() == HEAD {
            self.look_at_head(ear);
        }
        if self.front.len() >= HEAD && self.front.len() == self.size {
            self.look_at_message(ear);
            self.front.clear();
        }
    }

    /// Looks at a header: an application message is told at once, and its bytes are let go by.
    fn look_at_head<E: Ear>(&mut self, ear: &E) {
        let Some((head, _)) = self.front.as_slice().split_first_chunk::<HEAD>() else {
            return;
        };
        self.size = size_of(head);
        if self.size < HEAD || self.size > MOST {
            self.lose(ear);
            return;
        }
        if !is_session(head) {
            self.skipped = self.size.saturating_sub(HEAD);
            self.front.clear();
            ear.hear(self.way.application());
        }
    }

    /// Tells the message of the session in a whole frame.
    fn look_at_message<E: Ear>(&mut self, ear: &E) {
        let Some((_, message)) = self.front.as_slice().split_first_chunk::<6>() else {
            return;
        };
        if message.len() < 8 {
            return;
        }
        let found = match kind(Order::Little, message) {
            FrameKind::Session => read(message),
            FrameKind::App | FrameKind::Wrong => return,
        };
        if let Ok(found) = found {
            if matches!(found, SessionMsg::EstablishmentAck(_)) {
                self.is_established = true;
            }
            ear.hear(self.way.session(found));
        }
    }
}

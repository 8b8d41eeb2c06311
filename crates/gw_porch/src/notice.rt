//! What is told of guests: one thing a second at most, and how many more there were.

use conn_keys::Reject;
use fixp_shake::{EstablishmentCode, NegotiationCode};
use gw_watch::{Ear, Heard};
use std::net::SocketAddr;

/// How far apart two things are told at least, in milliseconds.
const APART: u64 = 1_000;

/// A guest that gives the keys, and the connection that it waits behind.
#[derive(Clone, Copy)]
struct Waiting {
    peer: SocketAddr,
    behind: SocketAddr,
}

/// When something was told last, and what was not told yet.
#[derive(Drop)]
pub(crate) struct Notice {
    /// The moment of the last thing that was told, in milliseconds.
    last: Option<u64>,
    /// How many guests were turned away and not told of.
    more: u64,
    /// The last guest that waits and was not told of. It goes before those who were turned away, who may be many.
    waiting: Option<Waiting>,
}

/// The session that a guest asked for, where it is another one.
fn asked_session(reject: Reject) -> Option<[u8; 16]> {
    match reject {
        Reject::Negotiation {
            session_id,
            code: NegotiationCode::Unspecified,
            ..
        } => Some(session_id),
        Reject::Establishment {
            session_id,
            code: EstablishmentCode::Unnegotiated,
            ..
        } => Some(session_id),
        _ => None,
    }
}

impl Notice {
    /// Nothing was told yet.
    pub(crate) fn new() -> Notice {
        Notice {
            last: None,
            more: 0,
            waiting: None,
        }
    }

    /// Whether something may be told now, which then is.
    fn may_tell(&mut self, now: u64) -> bool {
        if let Some(last) = self.last {
            if now.saturating_sub(last) < APART {
                return false;
            }
        }
        self.last = Some(now);
        true
    }

    /// A guest was turned away without a word.
    pub(crate) fn count(&mut self) {
        self.more = self.more.saturating_add(1);
    }

    /// A guest was rejected.
    pub(crate) fn refuse<E: Ear>(&mut self, ear: &E, peer: SocketAddr, reject: Reject, now: u64) {
        if self.waiting.is_some() || !self.may_tell(now) {
            self.count();
            return;
        }
        ear.hear(Heard::Refused {
            peer,
            asked: asked_session(reject),
            others: self.more,
        });
        self.more = 0;
    }

    /// A guest that gives the keys waits behind another connection.
    pub(crate) fn wait<E: Ear>(&mut self, ear: &E, peer: SocketAddr, behind: SocketAddr, now: u64) {
        self.waiting = Some(Waiting { peer, behind });
        self.catch_up(ear, now);
    }

    /// Tells what was not told yet, where it may: who waits, else how many were turned away.
    pub(crate) fn catch_up<E: Ear>(&mut self, ear: &E, now: u64) {
        if let Some(Waiting { peer, behind }) = self.waiting {
            if self.may_tell(now) {
                ear.hear(Heard::Waits { peer, behind });
                self.waiting = None;
            }
        } else if self.more > 0 && self.may_tell(now) {
            ear.hear(Heard::TurnedAway { others: self.more });
            self.more = 0;
        }
    }
}

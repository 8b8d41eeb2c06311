//! The guests of a port: who comes, who is looked at, who goes.

use crate::claim::Claim;
use crate::guest::{Found, Guest};
use crate::notice::Notice;
use crate::places::{PLACES, Places, Standing};
use crate::seat::{Older, Seat};
use conn_keys::Keys;
use gw_watch::{Ear, Heard};
use mio::net::{TcpListener, TcpStream};
use mio::{Interest, Registry, Token};
use std::alloc::{AllocError, Global};
use std::io::ErrorKind;
use std::net::SocketAddr;

/// The token of the place 0; those of the other places follow.
pub(crate) const FIRST_PLACE: usize = 3;

/// How many connections are accepted at once at most, before it is looked again who said something.
const AT_ONCE: u64 = 16;

/// How long nobody is accepted where the system has no descriptor or no memory for one more, also once a guest went, in milliseconds.
const PAUSE: u64 = 100;

/// How often those are looked at again of whom an event may not tell, in milliseconds.
const AGAIN: u64 = 20;

/// The guests of a port.
#[derive(Drop)]
pub(crate) struct Hall<'a, E> {
    ear: &'a E,
    keys: Keys,
    /// The own heartbeat interval, in milliseconds.
    own: u32,
    listener: TcpListener,
    places: Places,
    seat: Seat,
    notice: Notice,
    /// Whether more may wait to be accepted.
    has_more: bool,
    /// The moment before which nobody is accepted, in milliseconds.
    opens: u64,
    /// The moment at which the places are gone through next, in milliseconds.
    next_round: u64,
    /// Whether a place may have a guest of whom no event tells.
    has_half: bool,
}

impl<'a, E: Ear> Hall<'a, E> {
    /// Nobody came yet.
    ///
    /// # Errors
    /// Want of memory for the places.
    pub(crate) fn new(
        alloc: Global,
        ear: &'a E,
        keys: Keys,
        own: u32,
        listener: TcpListener,
    ) -> Result<Hall<'a, E>, AllocError> {
        Ok(Hall {
            ear,
            keys,
            own,
            listener,
            places: Places::new(alloc)?,
            seat: Seat::new(),
            notice: Notice::new(),
            has_more: true,
            opens: 0,
            next_round: 0,
            has_half: false,
        })
    }

    /// How long it may be waited for an event at most, in milliseconds.
    pub(crate) fn patience(&self, now: u64, wanted: u64) -> u64 {
        let wanted = if self.has_more {
            wanted.min(self.opens.saturating_sub(now))
        } else {
            wanted
        };
        if self.has_half {
            wanted.min(AGAIN)
        } else {
            wanted
        }
    }

    /// An event came of this token; `is_over` says that its connection gives no more than what waits.
    pub(crate) fn hear(&mut self, registry: &Registry, token: Token, is_over: bool, now: u64) {
        if token.0 < FIRST_PLACE {
            self.has_more = true;
            return;
        }
        let place = token.0 - FIRST_PLACE;
        if is_over {
            self.dismiss(registry, place, now);
        } else {
            let _ = self.visit(registry, place, now);
        }
    }

    /// Closes the connection of a place, whose guest gets no word and no line of its own.
    fn close(&mut self, place: usize) {
        if let Some(mut guest) = self.places.take(place) {
            if guest.is_answered() {
                let _ = guest.read_on();
            } else {
                self.notice.count();
            }
        }
    }

    /// Has the guest of a place go, behind a last look at what it has to say.
    fn dismiss(&mut self, registry: &Registry, place: usize, now: u64) {
        if !self.visit(registry, place, now) {
            self.close(place);
        }
    }

    /// Looks at the guest of a place, and answers whether it left it.
    fn visit(&mut self, registry: &Registry, place: usize, now: u64) -> bool {
        match self.places.look(place, &self.keys, self.own) {
            None | Some(Found::Nothing) => false,
            Some(Found::Keys(claim)) => {
                if let Some(mut guest) = self.places.take(place) {
                    // The system itself forgets a socket that is closed.
                    let _ = registry.deregister(&mut guest.stream);
                    self.park(guest, claim, now);
                }
                true
            }
            Some(Found::Rejected(reject)) => {
                if let Some(peer) = self.places.answer(place, reject, now) {
                    self.notice.refuse(self.ear, peer, reject, now);
                }
                self.has_half = true;
                false
            }
            Some(Found::Stranger | Found::Over) => {
                self.close(place);
                true
            }
        }
    }

    /// Has a guest wait that gives the keys.
    fn park(&mut self, guest: Guest, claim: Claim, now: u64) {
        let peer = guest.peer;
        if let Some(behind) = self.seat.park(guest, claim, now) {
            self.notice.wait(self.ear, peer, behind, now);
        }
    }

    /// Accepts some of those who wait to be.
    pub(crate) fn admit(&mut self, registry: &Registry, now: u64) {
        if !self.has_more || now < self.opens {
            return;
        }
        let mut has_failed = false;
        for _ in 0..AT_ONCE {
            match self.listener.accept() {
                Ok((stream, peer)) => {
                    has_failed = false;
                    self.welcome(registry, stream, peer, now);
                }
                Err(error) if error.kind() == ErrorKind::WouldBlock => {
                    self.has_more = false;
                    return;
                }
                Err(error) if error.kind() == ErrorKind::ConnectionAborted => {}
                Err(error) if error.kind() == ErrorKind::Interrupted => {}
                Err(_) if !has_failed => {
                    has_failed = true;
                    self.make_room(registry, now);
                }
                Err(_) => {
                    self.opens = now.saturating_add(PAUSE);
                    return;
                }
            }
        }
    }

    /// Looks at who was accepted, who then stays, is parked or goes.
    fn welcome(&mut self, registry: &Registry, stream: TcpStream, peer: SocketAddr, now: u64) {
        let mut guest = Guest::new(stream, peer, now);
        match guest.look(&self.keys, self.own) {
            Found::Keys(claim) => self.park(guest, claim, now),
            Found::Nothing => self.place(registry, guest, now),
            Found::Rejected(reject) => {
                guest.answer(reject, now);
                self.notice.refuse(self.ear, peer, reject, now);
                self.place(registry, guest, now);
            }
            Found::Stranger | Found::Over => self.notice.count(),
        }
    }

    /// Has the guest go whose place is wanted.
    fn make_room(&mut self, registry: &Registry, now: u64) {
        if let Some(place) = self.places.wanted() {
            self.dismiss(registry, place, now);
        }
    }

    /// Gives a guest a place.
    fn place(&mut self, registry: &Registry, mut guest: Guest, now: u64) {
        if self.places.free().is_none() {
            self.make_room(registry, now);
        }
        let Some(place) = self.places.free() else {
            return;
        };
        self.has_half = self.has_half || guest.is_half();
        let token = Token(FIRST_PLACE.saturating_add(place));
        match registry.register(&mut guest.stream, token, Interest::READABLE) {
            Ok(()) => self.places.put(place, guest),
            Err(_) => self.notice.count(),
        }
    }

    /// Goes through the places, where it is time for it: who is late goes, and who said half a frame is looked at again.
    pub(crate) fn round(&mut self, registry: &Registry, now: u64) {
        if now < self.next_round {
            return;
        }
        self.next_round = now.saturating_add(AGAIN);
        self.has_half = false;
        for place in 0..PLACES {
            match self.places.standing(place, now) {
                Standing::Calm => {}
                Standing::Late => self.dismiss(registry, place, now),
                Standing::Half => {
                    let is_gone = self.visit(registry, place, now);
                    self.has_half = self.has_half || !is_gone;
                }
            }
        }
        self.look_at_seat(registry, now);
        self.notice.catch_up(self.ear, now);
    }

    /// Turns away the guest that has waited at the seat for too long.
    fn look_at_seat(&mut self, registry: &Registry, now: u64) {
        let Some((mut guest, claim)) = self.seat.late(now) else {
            return;
        };
        if let Some(claim) = claim {
            guest.answer(claim.refusal, now);
            self.place(registry, guest, now);
        }
    }

    /// The guest that gives the keys and waits, who is let in now.
    pub(crate) fn let_in(&mut self, now: u64) -> Option<Guest> {
        self.seat.lend(now)
    }

    /// Bytes came over the connection that is lent.
    pub(crate) fn hear_lent(&mut self, now: u64) {
        self.seat.hear(now);
    }

    /// The connection that was lent is over.
    pub(crate) fn take_back(&mut self) {
        self.seat.take_back();
    }

    /// Whether the connection that is lent, over which nothing waits, is given up for one that waits.
    pub(crate) fn is_given_up(&mut self, now: u64) -> bool {
        match self.seat.older(now) {
            Older::GoesOn => false,
            Older::GivenUp => true,
            Older::Silent { peer, by, silent } => {
                self.ear.hear(Heard::TakesOver {
                    peer: by,
                    from: peer,
                    silent,
                });
                true
            }
        }
    }
}

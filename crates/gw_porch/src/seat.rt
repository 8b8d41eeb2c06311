//! The seat: where a guest that gives the keys waits to be let in, and what is known of the connection that is lent meanwhile.

ghost use Rattle.std.specs.Prelude.{◌≡◌};

use crate::claim::Claim;
use crate::guest::{Guest, PATIENCE};
use std::net::SocketAddr;

/// How much later than the first knock bytes of the older connection show that it lives, in milliseconds: earlier ones may have been under way.
const UNDER_WAY: u64 = 1_000;

/// A guest that gives the keys.
#[derive(Drop)]
struct Parked {
    guest: Guest,
    claim: Claim,
    /// The moment since which it waits, in milliseconds.
    since: u64,
}

/// The connection that is lent.
#[derive(Clone, Copy)]
struct Lent {
    peer: SocketAddr,
    /// The moment at which its last byte came, or at which it was lent, in milliseconds.
    heard: u64,
    /// Whether it was given up.
    is_given_up: bool,
}

/// What the older connection is to a guest at the seat.
#[derive(Clone, Copy)]
pub(crate) enum Older {
    /// It is given up now: so long was it silent, in milliseconds.
    Silent {
        peer: SocketAddr,
        by: SocketAddr,
        silent: u64,
    },
    /// It was given up before.
    GivenUp,
    /// It goes on.
    GoesOn,
}

/// The seat.
#[derive(Drop)]
pub(crate) struct Seat {
    parked: Option<Parked>,
    lent: Option<Lent>,
    /// The moment of the first knock beside the connection that is lent, in milliseconds.
    first_knock: Option<u64>,
}

impl Seat {
    /// Nobody waits, and nothing is lent.
    pub(crate) fn new() -> Seat {
        Seat {
            parked: None,
            lent: None,
            first_knock: None,
        }
    }

    /// Has a guest wait that gives the keys, in the place of one that waits already, and answers whom it waits behind.
    pub(crate) fn park(&mut self, guest: Guest, claim: Claim, now: u64) -> Option<SocketAddr>
        ensures lent { self.new.lent ≡ self.old.lent }
    {
        self.parked = Some(Parked {
            guest,
            claim,
            since: now,
        });
        let lent = self.lent?;
        if self.first_knock.is_none() {
            self.first_knock = Some(now);
        }
        Some(lent.peer)
    }

    /// Lends the connection of who waits.
    pub(crate) fn lend(&mut self, now: u64) -> Option<Guest> {
        let Parked { guest, .. } = self.parked.take()?;
        self.lent = Some(Lent {
            peer: guest.peer,
            heard: now,
            is_given_up: false,
        });
        Some(guest)
    }

    /// Nothing is lent any more.
    pub(crate) fn take_back(&mut self) {
        self.lent = None;
        self.first_knock = None;
    }

    /// Bytes came over the connection that is lent.
    pub(crate) fn hear(&mut self, now: u64) {
        if let Some(lent) = self.lent {
            self.lent = Some(Lent { heard: now, ..lent });
        }
    }

    /// What the older connection is, over which nothing waits now.
    pub(crate) fn older(&mut self, now: u64) -> Older {
        let Some(lent) = self.lent else {
            return Older::GoesOn;
        };
        if lent.is_given_up {
            return Older::GivenUp;
        }
        let Some(parked) = &self.parked else {
            return Older::GoesOn;
        };
        let silent = now.saturating_sub(lent.heard);
        if silent < parked.claim.patience {
            return Older::GoesOn;
        }
        let by = parked.guest.peer;
        self.lent = Some(Lent {
            is_given_up: true,
            ..lent
        });
        Older::Silent {
            peer: lent.peer,
            by,
            silent,
        }
    }

    /// Whether the older connection has lived since the first knock.
    fn has_lived(&self) -> bool {
        match (self.lent, self.first_knock) {
            (Some(lent), Some(knock)) => lent.heard.saturating_sub(knock) > UNDER_WAY,
            _ => false,
        }
    }

    /// The guest that has waited too long, and whether the older connection has lived meanwhile.
    pub(crate) fn late(&mut self, now: u64) -> Option<(Guest, Option<Claim>)>
        ensures lent { self.new.lent ≡ self.old.lent }
    {
        let parked = self.parked.take()?;
        if now.saturating_sub(parked.since) < PATIENCE {
            self.parked = Some(parked);
            return None;
        }
        let Parked { guest, claim, .. } = parked;
        if self.has_lived() {
            self.first_knock = None;
            return Some((guest, Some(claim)));
        }
        Some((guest, None))
    }
}

//! The places of guests.

use crate::guest::{Found, Guest};
use conn_keys::{Keys, Reject};
use std::alloc::{AllocError, Global};
use std::net::SocketAddr;

/// How many places there are; one guest more can stand at the seat.
pub(crate) const PLACES: usize = 255;

/// A guest at its place.
#[derive(Drop)]
struct Placed {
    guest: Guest,
    /// Its address but for the port.
    host: u32,
    /// How many of that address came no later, itself among them.
    rank: usize,
}

/// Whether a place is to be looked at where no event tells of its guest.
#[derive(Clone, Copy)]
pub(crate) enum Standing {
    /// Nobody stands there, or one who has time and said nothing yet.
    Calm,
    /// More may have come of its guest.
    Half,
    /// Its guest's time is up.
    Late,
}

/// The places of guests.
#[derive(Drop)]
pub(crate) struct Places {
    items: Vec<Option<Placed>>,
}

/// An address but for the port.
fn host_of(address: SocketAddr) -> u32 {
    match address {
        SocketAddr::V4(address) => u32::from_be_bytes(address.ip().octets()),
        SocketAddr::V6(_) => 0,
    }
}

impl Places {
    /// Places at which nobody stands.
    ///
    /// # Errors
    /// Want of memory.
    pub(crate) fn new(alloc: Global) -> Result<Places, AllocError> {
        let mut items = Vec::with_capacity(alloc, PLACES)?;
        for _ in 0..PLACES {
            items.push(None)?;
        }
        Ok(Places { items })
    }

    /// Looks at the guest of a place; `None` where nobody stands there. `own` is the own heartbeat interval in milliseconds.
    pub(crate) fn look(&mut self, place: usize, keys: &Keys, own: u32) -> Option<Found> {
        match self.items.get_mut(place) {
            Some(Some(placed)) => Some(placed.guest.look(keys, own)),
            _ => None,
        }
    }

    /// Answers the guest of a place, and tells who it is.
    pub(crate) fn answer(&mut self, place: usize, reject: Reject, now: u64) -> Option<SocketAddr> {
        match self.items.get_mut(place) {
            Some(Some(placed)) => {
                placed.guest.answer(reject, now);
                Some(placed.guest.peer)
            }
            _ => None,
        }
    }

    /// How long the guest of a place may stay as it is.
    pub(crate) fn standing(&self, place: usize, now: u64) -> Standing {
        match self.items.get(place) {
            Some(Some(placed)) if placed.guest.is_late(now) => Standing::Late,
            Some(Some(placed)) if placed.guest.is_half() => Standing::Half,
            _ => Standing::Calm,
        }
    }

    /// A place at which nobody stands.
    pub(crate) fn free(&self) -> Option<usize> {
        for (place, item) in self.items.iter().enumerate() {
            if item.is_none() {
                return Some(place);
            }
        }
        None
    }

    /// Puts a guest at a free place.
    pub(crate) fn put(&mut self, place: usize, guest: Guest) {
        let host = host_of(guest.peer);
        let mut rank: usize = 1;
        for item in self.items.iter() {
            if let Some(placed) = item {
                if placed.host == host {
                    rank = rank.saturating_add(1);
                }
            }
        }
        if let Some(item) = self.items.get_mut(place) {
            *item = Some(Placed { guest, host, rank });
        }
    }

    /// Takes a guest from its place.
    pub(crate) fn take(&mut self, place: usize) -> Option<Guest> {
        let item = self.items.get_mut(place)?;
        let Placed { guest, host, rank } = item.take()?;
        for item in self.items.iter_mut() {
            if let Some(placed) = item {
                if placed.host == host && placed.rank > rank {
                    placed.rank = placed.rank.saturating_sub(1);
                }
            }
        }
        Some(guest)
    }

    /// The address of which most guests are here, if anybody is.
    fn crowd(&self) -> Option<u32> {
        let mut found: Option<u32> = None;
        let mut most: usize = 0;
        for item in self.items.iter() {
            if let Some(placed) = item {
                if placed.rank > most {
                    most = placed.rank;
                    found = Some(placed.host);
                }
            }
        }
        found
    }

    /// The place that is wanted for one more: that of the oldest guest of the address of which most are here.
    pub(crate) fn wanted(&self) -> Option<usize> {
        let host = self.crowd()?;
        for (place, item) in self.items.iter().enumerate() {
            if let Some(placed) = item {
                if placed.host == host && placed.rank == 1 {
                    return Some(place);
                }
            }
        }
        None
    }
}

//! The guests of one address.

ghost use Rattle.std.specs.Prelude.{◌≡◌, ◌≤◌, false};
ghost use Rattle.gw_outside.specs.Faults.{HasRisen};

use crate::guest::Guest;
use crate::hall::Hall;
use crate::link::PortLink;
use crate::porch::{EVENTS, LISTENER, Porch, WAKER};
use conn_keys::Keys;
use gw_guests::{Arrived, Guests, Wakes};
use gw_outside::Failed;
use gw_sockets::{SocketReason, SocketWaker, listen};
use gw_watch::{Ear, Heard};
use mio::{Events, Interest, Poll};
use std::alloc::Global;
use std::io;
use std::net::{self, Net};
use std::sync::atomic::{AtomicBool, Ordering};
use std::time::Clock;

/// How long it waits for guests before it looks again whether it is to stop, in milliseconds.
const PIECE: u64 = 100;

/// What a porch is made of, before its address is bound.
#[derive(Drop)]
struct Unbound {
    keys: Keys,
    /// The own heartbeat interval, in milliseconds.
    own: u32,
    poll: Option<Poll>,
}

/// Guests who come to one address, of whom those are let in that give a session's keys. Whoever is rejected is answered, and an ear is told of it.
#[derive(Drop)]
pub struct PortGuests<'a, R, E> {
    rt: &'a R,
    alloc: Global,
    ear: &'a E,
    address: &'a str,
    unbound: Option<Unbound>,
    /// The porch, while no link is lent.
    porch: Option<Porch<'a, R, E>>,
    waker: SocketWaker,
    is_lent: bool,
    /// Why the address cannot be had, or the wait for guests failed.
    reason: Option<SocketReason>,
    faults: u64,
}

/// A porch at this address.
fn bound<'a, R: Net<Listener = net::TcpListener, Stream = net::TcpStream> + Clock, E: Ear>(
    rt: &'a R,
    alloc: Global,
    ear: &'a E,
    address: &'a str,
    unbound: Unbound,
) -> Result<Porch<'a, R, E>, SocketReason> {
    let Unbound { keys, own, poll } = unbound;
    let mut listener = listen(rt, address)?;
    let poll = match poll {
        Some(poll) => poll,
        None => Poll::new(rt)?,
    };
    poll.registry()
        .register(&mut listener, LISTENER, Interest::READABLE)?;
    let events = Events::with_capacity(alloc, EVENTS).map_err(io::Error::from)?;
    let hall = Hall::new(alloc, ear, keys, own, listener).map_err(io::Error::from)?;
    Ok(Porch::new(rt, hall, poll, events))
}

/// The next guest that gives the keys; `None` where `stop` was set before one came.
fn awaited<R: Clock, E: Ear>(
    porch: &mut Porch<'_, R, E>,
    stop: &AtomicBool,
) -> io::Result<Option<Guest>> {
    for _ in 0..u64::MAX {
        if stop.load(Ordering::SeqCst) {
            return Ok(None);
        }
        if let Some(guest) = porch.let_in() {
            return Ok(Some(guest));
        }
        porch.tend(PIECE)?;
    }
    Ok(None)
}

impl<'a, R: Net<Listener = net::TcpListener, Stream = net::TcpStream> + Clock, E: Ear> PortGuests<
    'a,
    R,
    E,
> {
    /// Guests of a session with these keys, whose own heartbeat interval is this, in milliseconds, at the address `A.B.C.D:PORT`. It is listened at from the
    /// first call on; where that cannot be, every call fails.
    pub fn new(
        rt: &'a R,
        alloc: Global,
        ear: &'a E,
        address: &'a str,
        keys: Keys,
        own: u32,
    ) -> PortGuests<'a, R, E>
        ensures lent { result.is_lent ≡ false }
        ensures faults { result.faults ≡ 0 }
    {
        let poll = Poll::new(rt).ok();
        let waker = match &poll {
            Some(poll) => SocketWaker::of(alloc, poll, WAKER),
            None => SocketWaker::none(),
        };
        PortGuests {
            rt,
            alloc,
            ear,
            address,
            unbound: Some(Unbound { keys, own, poll }),
            porch: None,
            waker,
            is_lent: false,
            reason: None,
            faults: 0,
        }
    }

    /// Listens from now on, where it does not yet. Where it cannot, every call of `arrive` fails.
    pub fn listen(&mut self)
        ensures lent { self.new.is_lent ≡ self.old.is_lent }
        ensures faults { self.new.faults ≡ self.old.faults }
    {
        let Some(unbound) = self.unbound.take() else {
            return;
        };
        match bound(self.rt, self.alloc, self.ear, self.address, unbound) {
            Ok(porch) => {
                self.ear.hear(Heard::Listens);
                self.porch = Some(porch);
            }
            Err(reason) => self.reason = Some(reason),
        }
    }

    /// Counts a call that failed.
    fn failed(&mut self) -> Failed
        ensures risen { HasRisen self.old.faults self.new.faults }
        ensures grown { self.old.faults ≤ self.new.faults }
        ensures lent { self.new.is_lent ≡ self.old.is_lent }
    {
        self.faults = self.faults.saturating_add(1);
        Failed
    }
}

impl<'a, R, E> PortGuests<'a, R, E> {
    /// Why the last call that failed did, if one has.
    pub fn reason(&self) -> Option<SocketReason> {
        self.reason
    }
}

impl<'a, R: Net<Listener = net::TcpListener, Stream = net::TcpStream> + Clock, E: Ear> Guests
    for PortGuests<'a, R, E> {
    ghost use Rattle.std.specs.Prelude.{None};

    type Link = PortLink<'a, R, E>;

    ghost told = { λ g. None };

    ghost lent = { λ g. g.is_lent };

    ghost faults = { λ g. g.faults };

    fn arrive(&mut self, stop: &AtomicBool) -> Result<Arrived<PortLink<'a, R, E>>, Failed> {
        self.listen();
        let Some(mut porch) = self.porch.take() else {
            return Err(self.failed());
        };
        match awaited(&mut porch, stop) {
            Ok(Some(guest)) => {
                self.is_lent = true;
                Ok(Arrived::Guest(PortLink::new(porch, guest)))
            }
            Ok(None) => {
                self.porch = Some(porch);
                Ok(Arrived::Stopped)
            }
            Err(error) => {
                self.porch = Some(porch);
                self.reason = Some(SocketReason::System(error));
                Err(self.failed())
            }
        }
    }

    fn away(&mut self, link: PortLink<'a, R, E>) {
        self.porch = Some(link.into_porch());
        self.is_lent = false;
    }

    fn back(&mut self, link: PortLink<'a, R, E>) {
        self.porch = Some(link.into_porch());
        self.is_lent = false;
    }
}

impl<R: Net<Listener = net::TcpListener, Stream = net::TcpStream> + Clock, E: Ear> Wakes
    for PortGuests<'_, R, E> {
    type Waker = SocketWaker;

    fn waker(&self) -> SocketWaker {
        self.waker.another()
    }
}

//! The porch: the guests of a port, and what waits for them and for the connection that is lent.

use crate::guest::Guest;
use crate::hall::{FIRST_PLACE, Hall};
use gw_watch::Ear;
use mio::net::TcpStream;
use mio::{Events, Interest, Poll, Registry, Token};
use std::io;
use std::time::{Clock, Duration};

/// The token of the socket that listens.
pub(crate) const LISTENER: Token = Token(0);

/// The token of what wakes the link that is lent.
pub(crate) const WAKER: Token = Token(1);

/// The token of the link that is lent.
const LENT: Token = Token(2);

/// How many events are looked at together at most.
pub(crate) const EVENTS: usize = 64;

/// How often guests are looked at while bytes come over the link that is lent, in milliseconds.
const GLANCE: u64 = 5;

/// How often a wait goes on behind events of guests alone.
const ROUNDS: u64 = 1_000;

/// The porch of a port.
#[derive(Drop)]
pub(crate) struct Porch<'a, R, E> {
    rt: &'a R,
    hall: Hall<'a, E>,
    poll: Poll,
    events: Events,
    /// The last moment, in milliseconds.
    now: u64,
    /// The moment of the next look while bytes come, in milliseconds.
    next_glance: u64,
    /// Whether something came of the link that is lent, or a wake, since the last wait for them: it ends the next one.
    is_called: bool,
}

/// The moment now, in milliseconds from some start; the last one where the clock cannot be read.
fn moment<R: Clock>(rt: &R, last: u64) -> u64 {
    match rt.monotonic() {
        Ok(moment) => last.max(moment.as_millis().min(u64::MAX as u128) as u64),
        Err(_) => last,
    }
}

/// Has the guests heard of whom these events tell, and answers whether something came of the link that is lent, or a wake.
fn heard<E: Ear>(hall: &mut Hall<'_, E>, events: &Events, registry: &Registry, now: u64) -> bool {
    let mut is_called = false;
    for event in events.iter() {
        let token = event.token();
        if token.0 == LENT.0 || token.0 == WAKER.0 {
            is_called = true;
        } else {
            hall.hear(registry, token, event.is_read_closed(), now);
        }
    }
    is_called
}

impl<'a, R: Clock, E: Ear> Porch<'a, R, E> {
    /// A porch with these guests, who wait by this.
    pub(crate) fn new(rt: &'a R, hall: Hall<'a, E>, poll: Poll, events: Events) -> Porch<'a, R, E> {
        Porch {
            rt,
            hall,
            poll,
            events,
            now: moment(rt, 0),
            next_glance: 0,
            is_called: false,
        }
    }

    /// Waits for so many milliseconds at most until something comes, and looks after the guests.
    ///
    /// # Errors
    /// What the system says of the wait.
    pub(crate) fn tend(&mut self, patience: u64) -> io::Result<()> {
        let patience = self.hall.patience(self.now, patience);
        self.poll
            .poll(&mut self.events, Some(Duration::from_millis(patience)))?;
        self.now = moment(self.rt, self.now);
        let registry = self.poll.registry();
        if heard(&mut self.hall, &self.events, registry, self.now) {
            self.is_called = true;
        }
        self.hall.admit(registry, self.now);
        self.hall.round(registry, self.now);
        Ok(())
    }

    /// Looks after the guests where it is time for that.
    ///
    /// # Errors
    /// What the system says of the look.
    pub(crate) fn glance(&mut self) -> io::Result<()> {
        self.now = moment(self.rt, self.now);
        if self.now < self.next_glance {
            return Ok(());
        }
        self.next_glance = self.now.saturating_add(GLANCE);
        self.tend(0)
    }

    /// Waits for so many milliseconds at most for the link that is lent, or a wake, and looks after the guests meanwhile.
    ///
    /// # Errors
    /// What the system says of the wait.
    pub(crate) fn wait(&mut self, patience: u64) -> io::Result<()> {
        let end = self.now.saturating_add(patience);
        for _ in 0..ROUNDS {
            if self.is_called {
                break;
            }
            self.tend(end.saturating_sub(self.now))?;
            if self.now >= end {
                break;
            }
        }
        self.is_called = false;
        Ok(())
    }

    /// The guest that gives the keys and waits: from now on its socket is waited for.
    pub(crate) fn let_in(&mut self) -> Option<Guest> {
        let mut guest = self.hall.let_in(self.now)?;
        match self.register(&mut guest.stream) {
            Ok(()) => Some(guest),
            Err(_) => {
                self.hall.take_back();
                None
            }
        }
    }

    /// Has a socket send small segments at once, and waits for it from now on.
    fn register(&self, stream: &mut TcpStream) -> io::Result<()> {
        stream.set_nodelay(true)?;
        let interest = Interest::READABLE | Interest::WRITABLE;
        self.poll.registry().register(stream, LENT, interest)
    }

    /// The link is over whose socket this was.
    pub(crate) fn take_back(&mut self, stream: &mut TcpStream) {
        // The system itself forgets a socket that is closed.
        let _ = self.poll.registry().deregister(stream);
        self.hall.take_back();
    }

    /// Bytes came over the link that is lent.
    pub(crate) fn hear_lent(&mut self) {
        self.now = moment(self.rt, self.now);
        self.hall.hear_lent(self.now);
    }

    /// Whether the link that is lent, over which nothing waits, is given up for a guest.
    pub(crate) fn is_given_up(&mut self) -> bool {
        self.hall.is_given_up(self.now)
    }
}

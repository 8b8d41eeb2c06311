//! What the links of a dialer wait with, one after another, and what wakes them.

use gw_links::Wake;
use mio::net::TcpStream;
use mio::{Interest, Poll, Token, Waker};
use std::alloc::Global;
use std::io;
use std::net::Net;
use std::sync::Arc;

/// The token of a link's socket.
const STREAM: Token = Token(0);

/// The token of the waker.
const WAKER: Token = Token(1);

/// Wakes the links that wait with one poll, or nothing where system or memory gave no waker.
#[derive(Drop)]
pub struct SocketWaker {
    waker: Option<Arc<Waker>>,
}

impl Wake for SocketWaker {
    fn wake(&self) {
        if let Some(waker) = &self.waker {
            let _ = waker.wake();
        }
    }
}

/// What wakes a wait with this poll, or `None` where system or memory give none.
fn waker_of(alloc: Global, poll: &Poll, token: Token) -> Option<Arc<Waker>> {
    let waker = Waker::new(poll.registry(), token).ok()?;
    Arc::new(alloc, waker).ok()
}

impl SocketWaker {
    /// What wakes a wait with this poll, which has an event of this token then; nothing where system or memory give none.
    pub fn of(alloc: Global, poll: &Poll, token: Token) -> SocketWaker {
        SocketWaker {
            waker: waker_of(alloc, poll, token),
        }
    }

    /// Wakes nothing.
    pub fn none() -> SocketWaker {
        SocketWaker { waker: None }
    }

    /// Another that wakes the same; nothing where none was given, or no further owner of it.
    pub fn another(&self) -> SocketWaker {
        let waker = match &self.waker {
            Some(waker) => waker.clone().ok(),
            None => None,
        };
        SocketWaker { waker }
    }
}

/// What a dialer lends to its links to wait with. A wake that comes while no link waits is kept in it for the next wait.
#[derive(Drop)]
pub(crate) struct Waiting {
    /// What the next link waits with; `None` while it is lent, and where the system gave none.
    poll: Option<Poll>,
    /// What ends a wait of that.
    waker: SocketWaker,
}

impl Waiting {
    /// What to wait with, and what wakes it, as far as system and memory give them.
    pub(crate) fn new<R: Net>(rt: &R, alloc: Global) -> Waiting {
        match Poll::new(rt) {
            Ok(poll) => Waiting {
                waker: SocketWaker::of(alloc, &poll, WAKER),
                poll: Some(poll),
            },
            Err(_) => Waiting {
                poll: None,
                waker: SocketWaker::none(),
            },
        }
    }

    /// What wakes the links that wait with this.
    pub(crate) fn waker(&self) -> SocketWaker {
        self.waker.another()
    }

    /// Lends what is to wait for the bytes of this socket, and for room in it behind a write that found none: where there is none, one that
    /// nothing wakes.
    ///
    /// # Errors
    /// What the system says; what was not lent is kept.
    pub(crate) fn lend<R: Net>(&mut self, rt: &R, stream: &mut TcpStream) -> io::Result<Poll> {
        let poll = match self.poll.take() {
            Some(poll) => poll,
            None => Poll::new(rt)?,
        };
        let interest = Interest::READABLE | Interest::WRITABLE;
        match poll.registry().register(stream, STREAM, interest) {
            Ok(()) => Ok(poll),
            Err(error) => {
                self.poll = Some(poll);
                Err(error)
            }
        }
    }

    /// Takes back what was lent, which waits for no socket any more.
    pub(crate) fn back(&mut self, poll: Poll) {
        self.poll = Some(poll);
    }
}

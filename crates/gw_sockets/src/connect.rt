//! A dialer that connects: each connection is one that it makes.

ghost use Rattle.std.specs.Prelude.{◌≡◌, false};

use crate::account::Account;
use crate::address::{AddressFault, parse_address};
use crate::reason::SocketReason;
use crate::socket::SocketLink;
use crate::waiting::{SocketWaker, Waiting};
use gw_links::{Dialer, Next};
use gw_outside::Failed;
use mio::net::TcpStream;
use mio::{Events, Interest, Poll, Token};
use std::alloc::Global;
use std::io::{self, ErrorKind};
use std::net::{Net, SocketAddr, SocketAddrV4};
use std::sync::atomic::{AtomicBool, Ordering};
use std::thread;
use std::time::{Clock, Duration};

/// How long a connection is tried for, in milliseconds.
const PATIENCE: u64 = 5_000;

/// How long it waits between two tries, in milliseconds.
const PAUSE: u64 = 50;

/// How long it waits for an answer before it looks again whether it is to stop, in milliseconds.
const PIECE: u64 = 100;

/// A dialer over connections that it makes to one address.
#[derive(Drop)]
pub struct ConnectDialer<'a, R> {
    rt: &'a R,
    alloc: Global,
    address: Result<SocketAddrV4, AddressFault>,
    waiting: Waiting,
    account: Account,
}

/// The moment now, in milliseconds from some start.
fn moment<R: Clock>(rt: &R) -> io::Result<u64> {
    Ok(rt.monotonic()?.as_millis().min(u64::MAX as u128) as u64)
}

/// Waits until a connection that was begun is made or refused, up to the moment `end`. Answers whether it was, and `false` where
/// `stop` was set before.
fn awaited<R: Net + Clock>(
    rt: &R,
    alloc: Global,
    stream: &mut TcpStream,
    end: u64,
    stop: &AtomicBool,
) -> io::Result<bool> {
    let mut poll = Poll::new(rt)?;
    let mut events = Events::with_capacity(alloc, 1)?;
    poll.registry()
        .register(stream, Token(0), Interest::WRITABLE)?;
    for _ in 0..u64::MAX {
        if stop.load(Ordering::SeqCst) {
            return Ok(false);
        }
        let piece = end.saturating_sub(moment(rt)?).min(PIECE).max(1);
        poll.poll(&mut events, Some(Duration::from_millis(piece)))?;
        if !events.is_empty() {
            return Ok(true);
        }
        if moment(rt)? >= end {
            return Err(ErrorKind::TimedOut.into());
        }
    }
    Ok(false)
}

/// One try to connect, which is given up at the moment `end`, or `None` where `stop` was set before it was answered. A port may be
/// connected to itself where nobody listens at it: that is no connection.
fn tried<R: Net + Clock>(
    rt: &R,
    alloc: Global,
    address: SocketAddr,
    end: u64,
    stop: &AtomicBool,
) -> Result<Option<TcpStream>, SocketReason> {
    let mut stream = TcpStream::connect(rt, address)?;
    if !awaited(rt, alloc, &mut stream, end, stop)? {
        return Ok(None);
    }
    if let Some(error) = stream.take_error()? {
        return Err(SocketReason::System(error));
    }
    if stream.peer_addr()? == stream.local_addr()? {
        return Err(SocketReason::Itself);
    }
    Ok(Some(stream))
}

/// Connects, and tries again where it fails for up to five seconds. It is `None` where `stop` was set before.
fn connected<R: Net + Clock>(
    rt: &R,
    alloc: Global,
    address: SocketAddr,
    stop: &AtomicBool,
) -> Result<Option<TcpStream>, SocketReason> {
    let end = moment(rt)?.saturating_add(PATIENCE);
    for _ in 0..u64::MAX {
        let is_last = moment(rt)? >= end;
        match tried(rt, alloc, address, end, stop) {
            Ok(stream) => return Ok(stream),
            Err(reason) if is_last => return Err(reason),
            Err(_) => thread::sleep(rt, Duration::from_millis(PAUSE)),
        }
    }
    Err(SocketReason::System(ErrorKind::TimedOut.into()))
}

impl<'a, R: Net + Clock> ConnectDialer<'a, R> {
    /// A dialer that makes `most` connections to the address `A.B.C.D:PORT`. Where the text is none, every call fails.
    pub fn new(rt: &'a R, alloc: Global, address: &str, most: u64) -> ConnectDialer<'a, R>
        ensures lent { result.account.is_lent ≡ false }
        ensures faults { result.account.faults ≡ 0 }
    {
        ConnectDialer {
            rt,
            alloc,
            address: parse_address(address),
            waiting: Waiting::new(rt, alloc),
            account: Account::new(most),
        }
    }

    /// Why the last call that failed did, if one has.
    pub fn reason(&self) -> Option<SocketReason> {
        self.account.reason
    }

    /// Whether a connection is left to be made.
    pub fn is_left(&self) -> bool {
        self.account.left > 0
    }

    /// The link of the next connection, or `None` where `stop` was set before it was made.
    fn reach(&mut self, stop: &AtomicBool) -> Result<Option<SocketLink>, SocketReason>
        ensures account { self.new.account ≡ self.old.account }
    {
        match connected(self.rt, self.alloc, SocketAddr::V4(self.address?), stop)? {
            Some(stream) => {
                let link = SocketLink::new(self.rt, self.alloc, stream, &mut self.waiting)?;
                Ok(Some(link))
            }
            None => Ok(None),
        }
    }
}

impl<R: Net + Clock> Dialer for ConnectDialer<'_, R> {
    ghost use Rattle.std.specs.Prelude.{None};

    type Link = SocketLink;

    type Waker = SocketWaker;

    ghost told = { λ d. None };

    ghost lent = { λ d. d.account.is_lent };

    ghost faults = { λ d. d.account.faults };

    fn next(&mut self, stop: &AtomicBool) -> Result<Next<SocketLink>, Failed> {
        if self.account.left == 0 {
            return Ok(Next::NoneLeft);
        }
        match self.reach(stop) {
            Ok(Some(link)) => {
                self.account.lend();
                Ok(Next::Link(link))
            }
            Ok(None) => Ok(Next::Stopped),
            Err(reason) => Err(self.account.failed(reason)),
        }
    }

    fn waker(&self) -> SocketWaker {
        self.waiting.waker()
    }

    fn back(&mut self, link: SocketLink) {
        self.waiting.back(link.into_poll());
        self.account.is_lent = false;
    }
}

//! A socket as a link. A receive waits as long as it may where nothing is there, and a send takes what the socket takes. Where bytes go neither
//! way, a send waits a little.

ghost use Rattle.std.specs.Prelude.{◌≡◌, ◌<◌, ◌≤◌, length, IfOk};
ghost use Rattle.gw_outside.specs.Faults.{HasRisen};
ghost use Rattle.gw_links.specs.Links.{IsWithin};

use crate::reason::SocketReason;
use crate::waiting::Waiting;
use gw_links::{Got, Link};
use gw_outside::Failed;
use mio::net::TcpStream;
use mio::{Events, Poll};
use std::alloc::Global;
use std::io::{self, ErrorKind, Read, Write};
use std::net::{Net, SocketAddr};
use std::time::Duration;

/// How many events a wait tells at most: of the socket, and of the waker.
const EVENTS: usize = 2;

/// How long a send waits at most, in milliseconds, where the socket took nothing at the last one either and nothing came since: so who has a
/// full link does not ask it again and again.
const FULL: u64 = 10;

/// One connection over a socket.
#[derive(Drop)]
pub struct SocketLink {
    stream: TcpStream,
    peer: Option<SocketAddr>,
    poll: Poll,
    events: Events,
    has_sent: bool,
    /// Whether the last send took nothing, and nothing came since.
    stands: bool,
    reason: Option<SocketReason>,
    faults: u64,
}

/// Reads what is there, again where a signal came between.
///
/// # Errors
/// What the system says.
pub fn read_now(stream: &mut TcpStream, into: &mut [u8]) -> io::Result<Got>
    ensures count { IfOk result (λ got. IsWithin got (length into.new)) }
{
    for _ in 0..u64::MAX {
        match stream.read(into) {
            Ok(0) => return Ok(Got::End),
            Ok(count) => return Ok(Got::Bytes(count)),
            Err(error) if error.kind() == ErrorKind::WouldBlock => return Ok(Got::Quiet),
            Err(error) if error.kind() == ErrorKind::Interrupted => {}
            Err(error) => return Err(error),
        }
    }
    Ok(Got::Quiet)
}

/// Writes what the socket takes now, again where a signal came between.
///
/// # Errors
/// What the system says.
pub fn write_now(stream: &mut TcpStream, bytes: &[u8]) -> io::Result<usize>
    ensures count { IfOk result (λ n. n ≤ length bytes.now) }
{
    for _ in 0..u64::MAX {
        match stream.write(bytes) {
            Ok(count) => return Ok(count),
            Err(error) if error.kind() == ErrorKind::WouldBlock => return Ok(0),
            Err(error) if error.kind() == ErrorKind::Interrupted => {}
            Err(error) => return Err(error),
        }
    }
    Ok(0)
}

impl SocketLink {
    /// A link over a connected socket, which sends small segments at once, and waits with what its dialer lends it.
    ///
    /// # Errors
    /// What the system says, and want of memory.
    pub(crate) fn new<R: Net>(
        rt: &R,
        alloc: Global,
        mut stream: TcpStream,
        waiting: &mut Waiting,
    ) -> io::Result<SocketLink>
        ensures fresh { IfOk result (λ link. link.faults ≡ 0) }
    {
        stream.set_nodelay(true)?;
        let events = Events::with_capacity(alloc, EVENTS)?;
        let poll = waiting.lend(rt, &mut stream)?;
        Ok(SocketLink {
            peer: stream.peer_addr().ok(),
            stream,
            poll,
            events,
            has_sent: false,
            stands: false,
            reason: None,
            faults: 0,
        })
    }

    /// Ends the connection, and gives back what it waited with.
    pub(crate) fn into_poll(self) -> Poll {
        let SocketLink {
            mut stream,
            poll,
            peer: _,
            events: _,
            has_sent: _,
            stands: _,
            reason: _,
            faults: _,
        } = self;
        // The system itself forgets a socket that is closed.
        let _ = poll.registry().deregister(&mut stream);
        poll
    }

    /// Why the last call that failed did, if one has.
    pub fn reason(&self) -> Option<SocketReason> {
        self.reason
    }

    /// The address of the other end, where the system told it.
    pub fn peer(&self) -> Option<SocketAddr> {
        self.peer
    }

    /// Receives, and waits for so many milliseconds at most where nothing is there and nothing was sent since the last wait. Bytes end
    /// the wait, and so does a wake.
    fn receive(&mut self, into: &mut [u8], patience: u64) -> io::Result<Got>
        ensures count { IfOk result (λ got. IsWithin got (length into.new)) }
        ensures faults { self.new.faults ≡ self.old.faults }
    {
        match read_now(&mut self.stream, into)? {
            Got::Quiet => {}
            got => {
                self.stands = false;
                return Ok(got);
            }
        }
        if patience == 0 {
            return Ok(Got::Quiet);
        }
        if self.has_sent {
            self.has_sent = false;
            return Ok(Got::Quiet);
        }
        self.poll
            .poll(&mut self.events, Some(Duration::from_millis(patience)))?;
        read_now(&mut self.stream, into)
    }

    /// Sends what the socket takes. Where it took nothing at the last send either, and nothing came since, it waits for either for a little.
    fn transmit(&mut self, bytes: &[u8]) -> io::Result<usize>
        ensures count { IfOk result (λ n. n ≤ length bytes.now) }
        ensures faults { self.new.faults ≡ self.old.faults }
    {
        let mut count = write_now(&mut self.stream, bytes)?;
        if count == 0 && self.stands {
            self.poll
                .poll(&mut self.events, Some(Duration::from_millis(FULL)))?;
            count = write_now(&mut self.stream, bytes)?;
        }
        self.stands = count == 0;
        self.has_sent = self.has_sent || count > 0;
        Ok(count)
    }

    /// Keeps why a call failed, and counts it.
    fn failed(&mut self, error: io::Error) -> Failed
        ensures risen { HasRisen self.old.faults self.new.faults }
        ensures grown { self.old.faults ≤ self.new.faults }
    {
        self.reason = Some(SocketReason::System(error));
        self.faults = self.faults.saturating_add(1);
        Failed
    }
}

impl Link for SocketLink {
    ghost use Rattle.std.specs.Prelude.{None, false};

    ghost told = { λ l. None };

    ghost carried = { λ l. None };

    ghost eager = { false };

    ghost Place = { Unit {0} };

    ghost place = { λ l. tt };

    ghost faults = { λ l. l.faults };

    fn recv(&mut self, into: &mut [u8], patience: u64) -> Result<Got, Failed> {
        match self.receive(into, patience) {
            Ok(got) => Ok(got),
            Err(error) => Err(self.failed(error)),
        }
    }

    fn send(&mut self, bytes: &[u8]) -> Result<usize, Failed> {
        if bytes.is_empty() {
            return Ok(0);
        }
        match self.transmit(bytes) {
            Ok(count) => Ok(count),
            Err(error) => Err(self.failed(error)),
        }
    }
}

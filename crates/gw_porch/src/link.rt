//! The link that a porch lends: the connection of who gave the keys. While it is lent the porch is in it, and is looked after as the link waits.

ghost use Rattle.std.specs.Prelude.{◌≡◌, ◌<◌, ◌≤◌, length, IfOk};
ghost use Rattle.gw_outside.specs.Faults.{HasRisen};
ghost use Rattle.gw_links.specs.Links.{IsWithin};

use crate::guest::{Guest, peek_now};
use crate::porch::Porch;
use gw_guests::Peek;
use gw_links::{Got, Link};
use gw_outside::Failed;
use gw_sockets::{read_now, write_now};
use gw_watch::{Ear, HasPeer};
use mio::net::TcpStream;
use std::io;
use std::net::SocketAddr;
use std::time::Clock;

/// How long a send waits at most, in milliseconds, where the socket took nothing at the last one either and nothing came since.
const FULL: u64 = 10;

/// One connection over a socket, and the porch that it came from.
#[derive(Drop)]
pub struct PortLink<'a, R, E> {
    porch: Porch<'a, R, E>,
    stream: TcpStream,
    peer: SocketAddr,
    has_sent: bool,
    /// Whether the last send took nothing, and nothing came since.
    stands: bool,
    faults: u64,
}

impl<'a, R: Clock, E: Ear> PortLink<'a, R, E> {
    /// The link of a guest of this porch.
    pub(crate) fn new(porch: Porch<'a, R, E>, guest: Guest) -> PortLink<'a, R, E>
        ensures fresh { result.faults ≡ 0 }
    {
        PortLink {
            porch,
            stream: guest.stream,
            peer: guest.peer,
            has_sent: false,
            stands: false,
            faults: 0,
        }
    }

    /// Ends the connection, and gives the porch back.
    pub(crate) fn into_porch(self) -> Porch<'a, R, E> {
        let PortLink {
            mut porch,
            mut stream,
            peer: _,
            has_sent: _,
            stands: _,
            faults: _,
        } = self;
        porch.take_back(&mut stream);
        porch
    }

    /// Reads what is there.
    fn read(&mut self, into: &mut [u8]) -> io::Result<Got>
        ensures count { IfOk result (λ got. IsWithin got (length into.new)) }
        ensures faults { self.new.faults ≡ self.old.faults }
    {
        let got = read_now(&mut self.stream, into)?;
        if let Got::Bytes(_) = got {
            self.stands = false;
            self.porch.hear_lent();
        }
        Ok(got)
    }

    /// Receives, and waits for so many milliseconds at most where nothing is there and nothing was sent since the last wait. Bytes end the wait, and so does
    /// a wake. Where it was given up for a guest it is over.
    fn receive(&mut self, into: &mut [u8], patience: u64) -> io::Result<Got>
        ensures count { IfOk result (λ got. IsWithin got (length into.new)) }
        ensures faults { self.new.faults ≡ self.old.faults }
    {
        self.porch.glance()?;
        match self.read(into)? {
            Got::Quiet => {}
            got => return Ok(got),
        }
        if self.porch.is_given_up() {
            return Ok(Got::End);
        }
        if patience == 0 {
            return Ok(Got::Quiet);
        }
        if self.has_sent {
            self.has_sent = false;
            return Ok(Got::Quiet);
        }
        self.porch.wait(patience)?;
        self.read(into)
    }

    /// Sends what the socket takes. Where it took nothing at the last send either, and nothing came since, it waits for either for a little.
    fn transmit(&mut self, bytes: &[u8]) -> io::Result<usize>
        ensures count { IfOk result (λ n. n ≤ length bytes.now) }
        ensures faults { self.new.faults ≡ self.old.faults }
    {
        let mut count = write_now(&mut self.stream, bytes)?;
        if count == 0 && self.stands {
            self.porch.wait(FULL)?;
            count = write_now(&mut self.stream, bytes)?;
        }
        self.stands = count == 0;
        self.has_sent = self.has_sent || count > 0;
        Ok(count)
    }

    /// Counts a call that failed.
    fn failed(&mut self) -> Failed
        ensures risen { HasRisen self.old.faults self.new.faults }
        ensures grown { self.old.faults ≤ self.new.faults }
    {
        self.faults = self.faults.saturating_add(1);
        Failed
    }
}

impl<R: Clock, E: Ear> Link for PortLink<'_, R, E> {
    ghost use Rattle.std.specs.Prelude.{None, false};

    ghost told = { λ l. None };

    ghost carried = { λ l. None };

    ghost eager = { false };

    ghost Place = { Unit {0} };

    ghost place = { λ l. tt };

    ghost faults = { λ l. l.faults };

    fn recv(&mut self, into: &mut [u8], patience: u64) -> Result<Got, Failed> {
        match self.receive(into, patience) {
            Ok(got) => Ok(got),
            Err(_) => Err(self.failed()),
        }
    }

    fn send(&mut self, bytes: &[u8]) -> Result<usize, Failed> {
        if bytes.is_empty() {
            return Ok(0);
        }
        match self.transmit(bytes) {
            Ok(count) => Ok(count),
            Err(_) => Err(self.failed()),
        }
    }
}

impl<R: Clock, E: Ear> Peek for PortLink<'_, R, E> {
    fn peek(&mut self, into: &mut [u8]) -> Result<usize, Failed> {
        match peek_now(&self.stream, into) {
            Ok(Some(count)) => Ok(count),
            Ok(None) => Ok(0),
            Err(_) => Err(self.failed()),
        }
    }
}

impl<R, E> HasPeer for PortLink<'_, R, E> {
    fn peer(&self) -> Option<SocketAddr> {
        Some(self.peer)
    }
}

//! Links over sockets: bytes both ways, the end of a peer, a socket that takes no more, and how long a receive waits.

ghost use Rattle.std.specs.Prelude.{◌≡◌, ◌<◌, false, length, IfOk};
ghost use Rattle.gw_links.specs.Links.{IsWithin};

use crate::sockets::door::{NEGOTIATE, door_at};
use cases_words::digits;
use gw_links::{Dialer, Got, Link, Next};
use gw_outside::Failed;
use gw_porch::PortLink;
use gw_sockets::{ConnectDialer, SocketLink};
use gw_watch::NoEar;
use std::alloc::{AllocError, Global};
use std::net::{Net, TcpListener, TcpStream};
use std::sync::atomic::AtomicBool;
use std::time::Clock;

/// How often a receive is tried until something comes.
const TRIES: u64 = 500;

/// How long a receive may wait, in milliseconds.
pub const PATIENCE: u64 = 10;

/// How many bytes are sent at once, where a socket is filled.
const PIECE: usize = 4096;

/// The next link, if one comes.
fn next_of<N: Dialer>(dialer: &mut N) -> Option<N::Link>
    requires { N.lent dialer.old ≡ false }
{
    match dialer.next(&AtomicBool::new(false)) {
        Ok(Next::Link(link)) => Some(link),
        Ok(Next::NoneLeft) => None,
        Ok(Next::Stopped) => None,
        Err(_) => None,
    }
}

/// The two ends of a new connection at a port, over which the keys were given and taken.
fn ends<'a, R: Net<Listener = TcpListener, Stream = TcpStream> + Clock>(
    rt: &'a R,
    alloc: Global,
    ear: &'a NoEar,
    address: &'a str,
) -> Option<(SocketLink, PortLink<'a, R, NoEar>)> {
    let mut accepting = door_at(rt, alloc, ear, address, 1);
    let mut connecting = ConnectDialer::new(rt, alloc, address, 1);
    let mut near = next_of(&mut connecting)?;
    let _ = near.send(&NEGOTIATE);
    // Behind a send one receive does not wait.
    let _ = near.recv(&mut [0; 8], PATIENCE);
    let mut far = next_of(&mut accepting)?;
    let _ = receive(&mut far, &mut [0; 41]);
    Some((near, far))
}

/// Receives until something comes.
fn receive<L: Link>(link: &mut L, into: &mut [u8]) -> Result<Got, Failed>
    requires { 0 < length into.old }
    ensures { IfOk result (λ got. IsWithin got (length into.new)) }
{
    for _ in 0..TRIES {
        match link.recv(into, PATIENCE) {
            Ok(Got::Quiet) => {}
            got => return got,
        }
    }
    Ok(Got::Quiet)
}

/// What came.
fn shown<L: Link>(alloc: Global, link: &mut L) -> Result<String, AllocError> {
    let mut piece = [0; 8];
    match receive(link, &mut piece) {
        Ok(Got::Bytes(count)) => digits(alloc, piece.split_at(count).0),
        Ok(got) => format!(in alloc; "{got:?}"),
        Err(fault) => format!(in alloc; "{fault:?}"),
    }
}

/// Bytes both ways, nothing, and the end of the other side.
pub fn exchange<R: Net<Listener = TcpListener, Stream = TcpStream> + Clock + AllocGlobal>(
    rt: &R,
) -> Result<String, AllocError> {
    let alloc = rt.alloc();
    let ear = NoEar;
    let Some((mut near, mut far)) = ends(rt, alloc, &ear, "127.0.0.1:45618") else {
        return format!(in alloc; "exchange: no connection");
    };
    let there = near.send(&[1, 2, 3]);
    let came = shown(alloc, &mut far)?;
    let back = far.send(&[4, 5]);
    let answered = shown(alloc, &mut near)?;
    let nothing = near.send(&[]);
    let quiet = far.recv(&mut [0; 8], PATIENCE);
    drop(near);
    let end = shown(alloc, &mut far)?;
    let again = shown(alloc, &mut far)?;
    format!(in alloc;
        "exchange: {there:?} {came}, {back:?} {answered}, {nothing:?} {quiet:?}, {end} {again}"
    )
}

/// Sends pieces until the socket takes nothing, and answers how many bytes it took.
fn filled<L: Link>(link: &mut L) -> u64 {
    let piece = [7; PIECE];
    let mut taken: u64 = 0;
    for _ in 0..10_000 {
        match link.send(&piece) {
            Ok(0) | Err(_) => return taken,
            Ok(count) => taken = taken.saturating_add(count as u64),
        }
    }
    0
}

/// Receives until nothing more comes, and answers how many bytes came.
fn drained<L: Link>(link: &mut L, wanted: u64) -> u64 {
    let mut piece = [0; PIECE];
    let mut came: u64 = 0;
    for _ in 0..100_000 {
        if came >= wanted {
            return came;
        }
        match receive(link, &mut piece) {
            Ok(Got::Bytes(count)) => came = came.saturating_add(count as u64),
            _ => return came,
        }
    }
    came
}

/// A socket that takes no more until its peer receives: nothing is lost.
pub fn full_socket<R: Net<Listener = TcpListener, Stream = TcpStream> + Clock + AllocGlobal>(
    rt: &R,
) -> Result<String, AllocError> {
    let alloc = rt.alloc();
    let ear = NoEar;
    let Some((mut near, mut far)) = ends(rt, alloc, &ear, "127.0.0.1:45619") else {
        return format!(in alloc; "full: no connection");
    };
    let taken = filled(&mut near);
    let came = drained(&mut far, taken);
    let is_some = taken > 0;
    let is_all = came == taken;
    format!(in alloc; "full: took some {is_some}, all came {is_all}")
}

/// A peer that goes away with bytes that it has not read.
pub fn broken<R: Net<Listener = TcpListener, Stream = TcpStream> + Clock + AllocGlobal>(
    rt: &R,
) -> Result<String, AllocError> {
    let alloc = rt.alloc();
    let ear = NoEar;
    let Some((mut near, far)) = ends(rt, alloc, &ear, "127.0.0.1:45620") else {
        return format!(in alloc; "broken: no connection");
    };
    let sent = near.send(&[1, 2, 3]);
    drop(far);
    let came = shown(alloc, &mut near)?;
    match near.reason() {
        Some(reason) => format!(in alloc; "broken: {sent:?}, {came}, {reason}"),
        None => format!(in alloc; "broken: {sent:?}, {came}, no reason"),
    }
}

/// The moment in milliseconds.
pub fn moment<R: Clock>(rt: &R) -> u64 {
    match rt.monotonic() {
        Ok(moment) => moment.as_millis().min(u64::MAX as u128) as u64,
        Err(_) => 0,
    }
}

/// A receive waits where nothing is there and it may, and not where bytes were sent since it waited.
pub fn waits<R: Net<Listener = TcpListener, Stream = TcpStream> + Clock + AllocGlobal>(
    rt: &R,
) -> Result<String, AllocError> {
    let alloc = rt.alloc();
    let ear = NoEar;
    let Some((mut near, _far)) = ends(rt, alloc, &ear, "127.0.0.1:45621") else {
        return format!(in alloc; "waits: no connection");
    };
    let start = moment(rt);
    for _ in 0..10 {
        let _ = near.recv(&mut [0; 8], PATIENCE);
    }
    let middle = moment(rt);
    for _ in 0..200 {
        let _ = near.send(&[1]);
        let _ = near.recv(&mut [0; 8], PATIENCE);
    }
    let end = moment(rt);
    for _ in 0..200 {
        let _ = near.recv(&mut [0; 8], 0);
    }
    let last = moment(rt);
    let has_waited = middle.saturating_sub(start) >= 90;
    let is_quick = end.saturating_sub(middle) < 1_500;
    let is_at_once = last.saturating_sub(end) < 1_500;
    format!(in alloc;
        "waits: with nothing sent {has_waited}, behind a send at once {is_quick}, without patience at once {is_at_once}"
    )
}

//! Dialers over sockets: addresses that are none or in use, nobody at an address, and the end of their connections.

ghost use Rattle.std.specs.Prelude.{◌≡◌, false};

use crate::sockets::door::{NEGOTIATE, door_at};
use gw_links::{Dialer, Link, Next};
use gw_sockets::{ConnectDialer, SocketReason};
use gw_watch::NoEar;
use std::alloc::{AllocError, Global};
use std::net::{Net, TcpListener, TcpStream};
use std::sync::atomic::AtomicBool;
use std::time::Clock;

/// Why a dialer failed, if it has.
fn text_of(alloc: Global, reason: Option<SocketReason>) -> Result<String, AllocError> {
    match reason {
        Some(reason) => format!(in alloc; "{reason}"),
        None => format!(in alloc; "no reason"),
    }
}

/// Whether a dialer fails at its next connection.
fn fails<N: Dialer>(dialer: &mut N) -> bool
    requires { N.lent dialer.old ≡ false }
    ensures { N.lent dialer.new ≡ false }
{
    match dialer.next(&AtomicBool::new(false)) {
        Ok(Next::Link(link)) => {
            dialer.back(link);
            false
        }
        Ok(Next::NoneLeft) => false,
        Ok(Next::Stopped) => false,
        Err(_) => true,
    }
}

/// Texts that are no addresses.
pub fn no_addresses<R: Net<Listener = TcpListener, Stream = TcpStream> + Clock + AllocGlobal>(
    rt: &R,
) -> Result<String, AllocError> {
    let (alloc, ear) = (rt.alloc(), NoEar);
    let mut shown = format!(in alloc; "addresses:")?;
    for text in [
        "localhost:45618",
        "127.0.0.1",
        "127.0.0.1:65536",
        " 127.0.0.1:45618",
        "1.2.3:4",
    ] {
        let mut accepting = door_at(rt, alloc, &ear, text, 1);
        let mut connecting = ConnectDialer::new(rt, alloc, text, 1);
        let both = fails(&mut accepting) && fails(&mut connecting);
        shown.push_str(format!(in alloc; " {both}")?.as_str())?;
    }
    let mut dialer = door_at(rt, alloc, &ear, "127.0.0.1", 1);
    let _ = fails(&mut dialer);
    format!(in alloc; "{shown}, {}", text_of(alloc, dialer.guests().reason())?)
}

/// A second listener at one address: each of its calls fails.
pub fn in_use<R: Net<Listener = TcpListener, Stream = TcpStream> + Clock + AllocGlobal>(
    rt: &R,
) -> Result<String, AllocError> {
    let (alloc, ear) = (rt.alloc(), NoEar);
    let _first = door_at(rt, alloc, &ear, "127.0.0.1:45624", 1);
    let mut second = door_at(rt, alloc, &ear, "127.0.0.1:45624", 1);
    let once = fails(&mut second);
    let again = fails(&mut second);
    format!(in alloc;
        "in use: {once} {again}, {}",
        text_of(alloc, second.guests().reason())?
    )
}

/// Nobody listens.
pub fn refused<R: Net<Listener = TcpListener, Stream = TcpStream> + Clock + AllocGlobal>(
    rt: &R,
) -> Result<String, AllocError> {
    let alloc = rt.alloc();
    let mut dialer = ConnectDialer::new(rt, alloc, "127.0.0.1:45625", 1);
    let fault = fails(&mut dialer);
    format!(in alloc; "refused: {fault}, {}", text_of(alloc, dialer.reason())?)
}

/// Whether a dialer has no connection left; over one the keys are given.
fn is_over<N: Dialer>(dialer: &mut N) -> bool
    requires { N.lent dialer.old ≡ false }
    ensures { N.lent dialer.new ≡ false }
{
    match dialer.next(&AtomicBool::new(false)) {
        Ok(Next::Link(mut link)) => {
            let _ = link.send(&NEGOTIATE);
            dialer.back(link);
            false
        }
        Ok(Next::NoneLeft) => true,
        Ok(Next::Stopped) => false,
        Err(_) => false,
    }
}

/// Two connections each, and then none.
pub fn over<R: Net<Listener = TcpListener, Stream = TcpStream> + Clock + AllocGlobal>(
    rt: &R,
) -> Result<String, AllocError> {
    let (alloc, ear) = (rt.alloc(), NoEar);
    let mut accepting = door_at(rt, alloc, &ear, "127.0.0.1:45626", 2);
    let mut connecting = ConnectDialer::new(rt, alloc, "127.0.0.1:45626", 2);
    let first = [is_over(&mut connecting), is_over(&mut accepting)];
    let second = [is_over(&mut connecting), is_over(&mut accepting)];
    let third = [is_over(&mut connecting), is_over(&mut accepting)];
    format!(in alloc; "over: {first:?} {second:?} {third:?}")
}

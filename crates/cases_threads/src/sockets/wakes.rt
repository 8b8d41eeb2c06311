//! What wakes the links of a dialer: a wake ends the next wait of its link, once, on one connection after another.

ghost use Rattle.std.specs.Prelude.{◌≡◌, false};

use crate::sockets::door::{NEGOTIATE, door_at};
use crate::sockets::links::{PATIENCE, moment};
use gw_links::{Dialer, Link, Next, Wake};
use gw_sockets::ConnectDialer;
use gw_watch::NoEar;
use std::alloc::AllocError;
use std::net::{Net, TcpListener, TcpStream};
use std::sync::atomic::AtomicBool;
use std::time::Clock;

/// How many waits are woken.
const WAITS: u64 = 100;

/// How long they may take, in milliseconds: without a wake each takes ten.
const LONGEST: u64 = 500;

/// What was seen of the waits of a link.
#[derive(Clone, Copy, Debug)]
struct Woken {
    /// Whether each wake ended a wait.
    each: bool,
    /// Whether the wait behind them lasted.
    once: bool,
}

/// What is seen of a link's waits, each but the last behind two wakes.
fn seen<L: Link, W: Wake, R: Clock>(rt: &R, link: &mut L, waker: &W) -> Woken {
    let start = moment(rt);
    for _ in 0..WAITS {
        waker.wake();
        waker.wake();
        let _ = link.recv(&mut [0; 8], PATIENCE);
    }
    let middle = moment(rt);
    let _ = link.recv(&mut [0; 8], PATIENCE);
    let end = moment(rt);
    Woken {
        each: middle.saturating_sub(start) < LONGEST,
        once: end.saturating_sub(middle) >= 9,
    }
}

/// What is seen at the accepting end of a new connection.
fn seen_there<N: Dialer, R: Clock>(rt: &R, dialer: &mut N, waker: &N::Waker) -> Option<Woken>
    requires { N.lent dialer.old ≡ false }
    ensures { N.lent dialer.new ≡ false }
{
    match dialer.next(&AtomicBool::new(false)) {
        Ok(Next::Link(mut link)) => {
            let woken = seen(rt, &mut link, waker);
            dialer.back(link);
            Some(woken)
        }
        Ok(Next::NoneLeft) => None,
        Ok(Next::Stopped) => None,
        Err(_) => None,
    }
}

/// What is seen at both ends of a new connection, the connecting one first.
fn seen_at_both<N: Dialer, M: Dialer, R: Clock>(
    rt: &R,
    near: &mut N,
    near_waker: &N::Waker,
    far: &mut M,
    far_waker: &M::Waker,
) -> Option<(Woken, Woken)>
    requires near { N.lent near.old ≡ false }
    requires far { M.lent far.old ≡ false }
    ensures near { N.lent near.new ≡ false }
    ensures far { M.lent far.new ≡ false }
{
    match near.next(&AtomicBool::new(false)) {
        Ok(Next::Link(mut link)) => {
            let _ = link.send(&NEGOTIATE);
            let here = seen(rt, &mut link, near_waker);
            let there = seen_there(rt, far, far_waker);
            near.back(link);
            Some((here, there?))
        }
        Ok(Next::NoneLeft) => None,
        Ok(Next::Stopped) => None,
        Err(_) => None,
    }
}

/// Wakes at both ends of two connections, one after another. What wakes them is had before the first.
pub fn wakes<R: Net<Listener = TcpListener, Stream = TcpStream> + Clock + AllocGlobal>(
    rt: &R,
) -> Result<String, AllocError> {
    let (alloc, ear) = (rt.alloc(), NoEar);
    let address = "127.0.0.1:45627";
    let mut accepting = door_at(rt, alloc, &ear, address, 2);
    let mut connecting = ConnectDialer::new(rt, alloc, address, 2);
    let here = connecting.waker();
    let there = accepting.waker();
    let first = seen_at_both(rt, &mut connecting, &here, &mut accepting, &there);
    let second = seen_at_both(rt, &mut connecting, &here, &mut accepting, &there);
    match (first, second) {
        (Some((a, b)), Some((c, d))) => {
            let each = [a.each, b.each, c.each, d.each];
            let once = [a.once, b.once, c.once, d.once];
            format!(in alloc; "wakes: end waits {each:?}, once {once:?}")
        }
        _ => format!(in alloc; "wakes: no connection"),
    }
}

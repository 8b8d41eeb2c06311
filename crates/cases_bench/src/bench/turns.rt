//! Turns of two connections against each other over a pipe in memory: a sender's messages go from its outbox into the peer's inbox.
//! Relies on `cases_made`.

use crate::bench::sum_of_bytes;
use cases_made::{DrivenEnd, Setup, fresh_disks};
use conn_loop::NewsItem;
use fixp_end::{Flow, Role};
use gw_link_fakes::Pipe;
use std::alloc::Global;
use std::sync::Wait;

/// The most messages.
const MOST: u64 = 1 << 20;

/// The bytes of the greatest payload.
const LARGEST: u64 = 4096;

/// The bytes that an entry takes in a journal beside its payload, at most.
const BESIDE: u64 = 24;

/// The room of the pipe each way, in bytes.
const ROOM: usize = 1 << 17;

/// How many messages are submitted before a turn.
const LIVE: u64 = 16;

/// What came of the turns.
#[derive(Clone, Copy)]
pub struct Came {
    /// How many messages were delivered.
    pub count: u64,
    /// The sum of their numbers and of all their bytes.
    pub sum: u64,
}

/// An application message of so many bytes with its encoding type: schema 100, template 7.
fn message(alloc: Global, size: u64) -> Option<Vec<u8>> {
    let size = size.clamp(10, LARGEST);
    let block = size - 10;
    let mut bytes = Vec::new(alloc);
    let header = [
        0xEB,
        0x50,
        (block % 256) as u8,
        (block / 256) as u8,
        7,
        0,
        0x64,
        0,
        1,
        0,
    ];
    bytes.extend_from_slice(&header).ok()?;
    bytes.resize(size as usize, 0x2A).ok()?;
    Some(bytes)
}

/// An end with one sender on disks of so many bytes; none where it is not to be had.
fn end(alloc: Global, role: Role, room: u64) -> Option<DrivenEnd> {
    let setup = Setup {
        role,
        session: [0x11; 16],
        own_flow: Flow::Recoverable,
        peer_flow: Flow::Recoverable,
        senders: 1,
    };
    DrivenEnd::open(alloc, setup, fresh_disks(alloc, room as usize)?)
}

/// Adds what a turn delivered.
fn add_news(items: &[NewsItem], came: &mut Came) {
    for item in items {
        if let NewsItem::Delivered { number, payload } = item {
            let bytes = sum_of_bytes(payload.as_slice());
            came.count = came.count.saturating_add(1);
            came.sum = came.sum.wrapping_add(*number).wrapping_add(bytes);
        }
    }
}

/// Submits messages, so many at most, as a turn may send them.
fn submit<R: Wait>(end: &mut DrivenEnd, message: &[u8], left: u64, rt: &R) {
    for _ in 0..left.min(LIVE) {
        let _ = end.submit(1, message, rt);
    }
}

/// Makes turns until so many messages are delivered, or more rounds are over than that takes.
fn run<R: Wait>(
    initiator: &mut DrivenEnd,
    acceptor: &mut DrivenEnd,
    pipe: &mut Pipe,
    message: &[u8],
    many: u64,
    rt: &R,
) -> Came {
    let mut came = Came { count: 0, sum: 0 };
    initiator.begin();
    acceptor.begin();
    for round in 0..many.saturating_add(8) {
        submit(
            initiator,
            message,
            many.saturating_sub(round.saturating_mul(LIVE)),
            rt,
        );
        initiator.turn(&mut pipe.left(), 0, rt);
        acceptor.turn(&mut pipe.right(), 0, rt);
        add_news(acceptor.news(), &mut came);
        if came.count >= many {
            break;
        }
    }
    came
}

/// Has a sender submit so many messages of so many bytes, and makes turns until all are delivered; none where an end is not to
/// be had.
pub fn turned<R: Wait>(rt: &R, alloc: Global, many: u64, size: u64) -> Option<Came> {
    if many > MOST || size > LARGEST {
        return None;
    }
    let message = message(alloc, size)?;
    let room = 1024 + many * (size + BESIDE);
    let mut pipe = Pipe::new(alloc, ROOM).ok()?;
    let mut initiator = end(alloc, Role::Initiator, room)?;
    let Some(mut acceptor) = end(alloc, Role::Acceptor, room) else {
        let _ = initiator.close();
        return None;
    };
    let came = run(
        &mut initiator,
        &mut acceptor,
        &mut pipe,
        message.as_slice(),
        many,
        rt,
    );
    let _ = (initiator.close(), acceptor.close());
    Some(came)
}

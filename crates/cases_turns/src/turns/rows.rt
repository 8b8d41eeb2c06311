//! Whole turns of one end, which hears frames by name over a pipe, a connection after another: what each turn writes and delivers.

ghost use Rattle.std.specs.Prelude.{◌≡◌};

use crate::turns::written::push_written;
use cases_made::{DrivenEnd, ID, Setup, flow_of, fresh_disks, role_of};
use cases_words::{Named, halves, number, parted};
use conn_turns::NewsItem;
use gw_link_fakes::Pipe;
use gw_links::{Got, Link};
use std::alloc::{AllocError, Global};
use std::sync::Wait;

/// The room of a disk, in bytes.
const DISK: usize = 1 << 13;

/// The room of the pipe each way, in bytes: more than a turn writes, and than a connection's frames are.
const ROOM: usize = 512;

/// A message of the end's own.
const MESSAGE: [u8; 10] = [0xEB, 0x50, 0, 0, 7, 0, 0x64, 0, 1, 0];

/// What an end of this side, which sends one flow and receives the other, is made with.
fn setup(side: &str, own: &str, peer: &str) -> Setup
    ensures senders { result.senders ≡ 1 }
{
    Setup {
        role: role_of(side),
        session: ID,
        own_flow: flow_of(own),
        peer_flow: flow_of(peer),
        senders: 1,
    }
}

/// Its sender submits so many messages.
fn submit<R: Wait>(end: &mut DrivenEnd, count: u64, rt: &R) {
    for _ in 0..count {
        let _ = end.submit(1, &MESSAGE, rt);
    }
}

/// An end that has sent so many entries in a life before, and has so many more in its outbox; none where memory runs out.
fn made<R: Wait>(alloc: Global, setup: Setup, sent: u64, more: u64, rt: &R) -> Option<DrivenEnd>
    requires senders { setup.senders ≡ 1 }
{
    let mut before = DrivenEnd::open(alloc, setup, fresh_disks(alloc, DISK)?)?;
    submit(&mut before, sent, rt);
    let mut end = DrivenEnd::open(alloc, setup, before.close())?;
    submit(&mut end, more, rt);
    Some(end)
}

/// The peer sends the frames of these names.
fn send_frames(
    alloc: Global,
    pipe: &mut Pipe,
    named: Named<'_>,
    names: &str,
) -> Result<(), AllocError> {
    for name in names.split(" ") {
        let bytes = named.bytes(alloc, name)?;
        let _ = pipe.left().send(bytes.as_slice());
    }
    Ok(())
}

/// Adds what comes to the peer.
fn push_heard(alloc: Global, line: &mut String, pipe: &mut Pipe) -> Result<(), AllocError> {
    let mut bytes = [0; ROOM];
    let count = match pipe.left().recv(&mut bytes, 0) {
        Ok(Got::Bytes(count)) => count,
        _ => 0,
    };
    match bytes.split_at_checked(count) {
        Some((front, _)) => push_written(alloc, line, front),
        None => Ok(()),
    }
}

/// Adds the numbers of the messages that a turn delivered.
fn push_delivered(line: &mut String, news: &[NewsItem]) -> Result<(), AllocError> {
    for item in news {
        if let NewsItem::Delivered { number, .. } = item {
            write!(line, " {number}")?;
        }
    }
    Ok(())
}

/// Makes a turn, and adds its line.
fn push_turn<R: Wait>(
    alloc: Global,
    line: &mut String,
    end: &mut DrivenEnd,
    pipe: &mut Pipe,
    rt: &R,
) -> Result<(), AllocError> {
    end.turn(&mut pipe.right(), 1, rt);
    line.push_str("\n  writes")?;
    push_heard(alloc, line, pipe)?;
    line.push_str(", delivers")?;
    push_delivered(line, end.news())
}

/// Adds a connection of so many turns, in which the peer sends the frames of these names before the first.
fn push_connection<R: Wait>(
    alloc: Global,
    line: &mut String,
    end: &mut DrivenEnd,
    turns: u64,
    named: Named<'_>,
    names: &str,
    rt: &R,
) -> Result<(), AllocError> {
    let mut pipe = Pipe::new(alloc, ROOM)?;
    send_frames(alloc, &mut pipe, named, names)?;
    end.begin();
    for _ in 0..turns {
        push_turn(alloc, line, end, &mut pipe, rt)?;
    }
    end.cut();
    Ok(())
}

/// Adds the connections of an end one after another.
fn push_connections<R: Wait>(
    alloc: Global,
    line: &mut String,
    end: &mut DrivenEnd,
    turns: u64,
    named: Named<'_>,
    connections: &str,
    rt: &R,
) -> Result<(), AllocError> {
    for names in connections.split(", ") {
        push_connection(alloc, line, end, turns, named, names, rt)?;
    }
    Ok(())
}

/// Adds the turns of an end, a line each: `SIDE OWN PEER SENT MORE TURNS, NAME NAME .., NAME NAME ..`. It has sent so many entries, and has so
/// many more, and makes so many turns in each connection.
///
/// # Errors
/// Want of memory for the words.
pub fn push_row<R: Wait>(
    alloc: Global,
    line: &mut String,
    named: Named<'_>,
    row: &str,
    rt: &R,
) -> Result<(), AllocError> {
    let (kind, connections) = parted(row, ", ");
    line.push_str(kind)?;
    let (side, rest) = halves(kind);
    let (own, rest) = halves(rest);
    let (peer, rest) = halves(rest);
    let (sent, rest) = halves(rest);
    let (more, turns) = halves(rest);
    let Some(mut end) = made(
        alloc,
        setup(side, own, peer),
        number(sent),
        number(more),
        rt,
    ) else {
        return line.push_str(": want of memory");
    };
    let said = push_connections(alloc, line, &mut end, number(turns), named, connections, rt);
    let _ = end.close();
    said
}

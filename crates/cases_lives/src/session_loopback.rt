//! A session of both commands over this machine's own network: `accept` and `connect` run in two threads, over sockets at port
//! 45617 and over journals in memory, with two senders of 100 messages at each end. Both journals are compared. What it has to
//! print stands in `stdout`, worked out by hand, and is the same whatever the threads' order.

mod compared;
mod ends;

use compared::{applied, ordered};
use ends::{Ended, acceptor, initiator};
use jr_record::Record;
use std::alloc::Global;
use std::io;
use std::net::{Net, TcpListener, TcpStream};
use std::sync::Wait;
use std::thread::{Threads, join_mut};
use std::time::Clock;

/// How many messages of each of its two senders an outbox has, where they are those of its plan.
fn sent(outbox: &[Record]) -> [Option<u64>; 2] {
    [ordered(outbox, 1), ordered(outbox, 2)]
}

/// Prints what became of an end whose peer is this.
fn print_end<R: Print + AllocGlobal>(
    rt: &R,
    name: &str,
    end: &Ended,
    peer: &Ended,
) -> io::Result<()> {
    let status = end.status;
    let applied = applied(peer.outbox.as_slice(), end.inbox.as_slice());
    let senders = sent(end.outbox.as_slice());
    println!(rt; "{name}: status {status}, applied {applied:?}, senders {senders:?}")
}

/// Prints what became of both ends.
fn print_ends<R: Print + AllocGlobal>(
    rt: &R,
    accept: Option<&Ended>,
    connect: Option<&Ended>,
) -> io::Result<()> {
    match (accept, connect) {
        (None, _) => rt.println("accept was not set up"),
        (_, None) => rt.println("connect was not set up"),
        (Some(accept), Some(connect)) => {
            print_end(rt, "accept", accept, connect)?;
            print_end(rt, "connect", connect, accept)
        }
    }
}

/// Runs both ends at once.
fn both<R: Threads + Wait + Sync + Net<Listener = TcpListener, Stream = TcpStream> + Clock>(
    rt: &R,
    alloc: Global,
) -> (Option<Ended>, Option<Ended>) {
    join_mut(
        rt,
        &mut || acceptor(rt, alloc),
        &mut || { initiator(rt, alloc) },
    )
}

/// Prints what the section shows.
pub fn print<
    R: Print
        + Threads
        + Wait
        + Sync
        + Net<Listener = TcpListener, Stream = TcpStream>
        + Clock
        + AllocGlobal,
>(rt: &R) -> io::Result<()> {
    let (accept, connect) = both(rt, rt.alloc());
    print_ends(rt, accept.as_ref(), connect.as_ref())
}

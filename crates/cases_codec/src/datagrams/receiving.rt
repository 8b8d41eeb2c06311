//! Datagrams that come to a receiver: `starts FLOW NEXT MOST N+COUNT..` has datagrams come that begin with N and have so many messages.
//! What the calls answer is shown, what is asked for behind each datagram, and at the end the number that is waited for. `orders FLOW K`
//! sums up the same of every list of six deliveries of four datagrams that begins with the K-th.

ghost use Rattle.std.specs.Prelude.{IsSome};

use crate::datagrams::packing::{pack_from, payload};
use cases_words::{halves, number, parted};
use fixp_datagram::{Datagram, DgReceiver, Start, open_datagram};
use fixp_msgs::Flow;
use sbe_value::Payloads;
use std::alloc::{AllocError, Global};

/// The bytes of a frame here: of a Sequence, and of a message.
const FRAME: u64 = 22;

/// The most messages of a datagram.
const MOST_MESSAGES: u64 = 300;

/// The datagrams of `orders`.
const DATAGRAMS: u64 = 4;

/// The messages of each of them.
const PER: u64 = 2;

/// The deliveries of a list.
const DELIVERIES: u64 = 6;

/// All lists of so many deliveries that begin with the same datagram.
const LISTS: u64 = 1024;

/// A receiver of the flow that a word names; None where it is carried in no datagrams, or the greatest number is too great.
fn receiver_of(flow: &str, next: u64, most: u64) -> Option<DgReceiver> {
    if most == u64::MAX {
        return None;
    }
    match flow {
        "recoverable" => Some(DgReceiver::new(Flow::Recoverable, next, most)),
        "idempotent" => Some(DgReceiver::new(Flow::Idempotent, next, most)),
        _ => None,
    }
}

/// The payloads of so many messages, from a number on.
fn payloads(alloc: Global, first: u64, count: u64) -> Result<Payloads, AllocError> {
    let mut payloads = Payloads::new(alloc);
    for k in 0..count.min(MOST_MESSAGES) {
        payloads.push(payload(alloc, first.wrapping_add(k))?)?;
    }
    Ok(payloads)
}

/// Adds what becomes of the messages of a datagram, whose start was taken.
fn add_messages(
    receiver: &mut DgReceiver,
    datagram: Datagram<'_>,
    told: &mut String,
) -> Result<(), AllocError>
    requires begun { IsSome receiver.old.counting }
{
    let mut datagram = datagram;
    for _ in 0..MOST_MESSAGES {
        if datagram.next().is_none() {
            break;
        }
        let seen = receiver.on_app();
        write!(told, " {seen:?}")?;
    }
    Ok(())
}

/// Adds what becomes of a datagram that is opened.
fn add_opened(
    receiver: &mut DgReceiver,
    datagram: Datagram<'_>,
    told: &mut String,
) -> Result<(), AllocError> {
    let start = receiver.on_start(datagram.first());
    write!(told, " {start:?}")?;
    match start {
        Start::TooLarge => Ok(()),
        Start::Plain | Start::Missing(_) => add_messages(receiver, datagram, told),
    }
}

/// Adds what is asked for, if anything is.
fn add_ask(receiver: &DgReceiver, told: &mut String) -> Result<(), AllocError> {
    match receiver.ask() {
        Some(range) => {
            let from = range.from;
            let count = range.count;
            write!(told, " ask {from} {count}")
        }
        None => Ok(()),
    }
}

/// Adds what becomes of bytes that come, and what is asked for behind them.
fn add_delivery(
    receiver: &mut DgReceiver,
    bytes: &[u8],
    told: &mut String,
) -> Result<(), AllocError> {
    match open_datagram(bytes) {
        Ok(datagram) => add_opened(receiver, datagram, told)?,
        Err(fault) => write!(told, " {fault:?}")?,
    }
    add_ask(receiver, told)
}

/// Adds the number that is waited for.
fn add_next(receiver: &DgReceiver, told: &mut String) -> Result<(), AllocError> {
    let next = receiver.next();
    write!(told, " next {next}")
}

/// Adds what becomes of a datagram that begins with a number and has so many messages.
fn add_datagram(
    alloc: Global,
    receiver: &mut DgReceiver,
    first: u64,
    count: u64,
    told: &mut String,
) -> Result<(), AllocError> {
    let count = count.min(MOST_MESSAGES);
    let payloads = payloads(alloc, first, count)?;
    let room = (1 + count) * FRAME;
    match pack_from(alloc, first, &payloads, 0, room as usize)? {
        Some(packed) => add_delivery(receiver, packed.bytes.as_slice(), told)?,
        None => write!(told, " none")?,
    }
    write!(told, ",")
}

/// Adds what becomes of datagrams that begin with these numbers.
pub fn add_starts(alloc: Global, words: &str, told: &mut String) -> Result<(), AllocError> {
    let (flow, words) = halves(words);
    let (next, words) = halves(words);
    let (most, starts) = halves(words);
    let Some(mut receiver) = receiver_of(flow, number(next), number(most)) else {
        return write!(told, ", no receiver");
    };
    write!(told, ":")?;
    for start in starts.split(" ") {
        let (first, count) = parted(start, "+");
        add_datagram(alloc, &mut receiver, number(first), number(count), told)?;
    }
    add_next(&receiver, told)
}

/// Adds what becomes of a list of deliveries, which is a number in digits of four, the last of them first.
fn add_list(alloc: Global, flow: &str, list: u64, told: &mut String) -> Result<(), AllocError> {
    let Some(mut receiver) = receiver_of(flow, 1, DATAGRAMS * PER) else {
        return Ok(());
    };
    let mut left = list;
    for _ in 0..DELIVERIES {
        let first = left % DATAGRAMS * PER + 1;
        add_datagram(alloc, &mut receiver, first, PER, told)?;
        left /= DATAGRAMS;
    }
    add_next(&receiver, told)
}

/// A sum of a text, in which each byte counts by its place.
fn sum_of(text: &str) -> u64 {
    let mut sum = 0u64;
    for byte in text.as_bytes() {
        sum = sum.wrapping_mul(31).wrapping_add(u64::from(*byte));
    }
    sum
}

/// Adds a sum of what becomes of all lists that begin with a datagram.
pub fn add_orders(alloc: Global, words: &str, told: &mut String) -> Result<(), AllocError> {
    let (flow, datagram) = halves(words);
    let begin = number(datagram).wrapping_sub(1) % DATAGRAMS;
    let mut all = String::new(alloc);
    for later in 0..LISTS {
        add_list(alloc, flow, begin + later * DATAGRAMS, &mut all)?;
    }
    let sum = sum_of(all.as_str());
    write!(told, ", sum {sum}")
}

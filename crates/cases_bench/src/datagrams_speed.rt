//! Datagrams: packs ten messages of 62 bytes, opens the datagram and has a receiver take its messages, so many times, and prints a sum of
//! all that, so that no work can be left out, and the number that the receiver waits for then. The word on the command line is COUNT.

ghost use Rattle.std.specs.Prelude.{IsSome, IfSome};
ghost use Rattle.std.specs.List.{AllByRecursion};
ghost use Rattle.fixp_msgs.specs.Payload.{IsApplication};

use cases_words::number;
use fixp_datagram::{Datagram, DgReceiver, DgSeen, Start, open_datagram, pack};
use fixp_msgs::{Flow, Range, is_application};
use gw_outside::{Bytes, Payloads};
use std::alloc::Global;
use std::rt::Env;
use std::{env, io};

/// The messages of a datagram.
const PER: u8 = 10;

/// The bytes of an application message with its encoding type.
const PAYLOAD: usize = 62;

/// The room of a datagram, in bytes.
const ROOM: usize = 2048;

/// The greatest number that a message may have.
const MOST: u64 = u64::MAX - 1;

/// What came of the datagrams.
#[derive(Clone, Copy)]
struct Came {
    sum: u64,
    /// The number that the receiver waits for.
    next: u64,
}

/// The payload of the k-th message of each datagram: an application message of schema 100, template 7. None where memory runs out.
fn message(alloc: Global, k: u8) -> Option<Bytes>
    ensures application { IfSome result IsApplication }
{
    let mut bytes = [0x2A_u8.wrapping_add(k); PAYLOAD];
    bytes[..10].copy_from_slice(&[0xEB, 0x50, 0x34, 0, 7, 0, 0x64, 0, 1, 0]);
    if !is_application(&bytes) {
        return None;
    }
    Bytes::from_slice(alloc, &bytes).ok()
}

/// The payloads of each datagram. None where memory runs out.
fn messages(alloc: Global) -> Option<Payloads>
    ensures applications { IfSome result (AllByRecursion IsApplication) }
{
    let mut payloads = Vec::new(alloc);
    for k in 0..PER {
        payloads.push(message(alloc, k)?).ok()?;
    }
    Some(Payloads::from(payloads))
}

/// What a message adds to the sum: its number and its last byte where it is delivered.
fn sum_of(seen: DgSeen, payload: &[u8]) -> u64 {
    match seen {
        DgSeen::Deliver(number) => match payload.last() {
            Some(byte) => number.wrapping_add(u64::from(*byte)),
            None => number,
        },
        DgSeen::Late(number) | DgSeen::Gap(number) | DgSeen::TooLarge(number) => {
            number.wrapping_mul(1000)
        }
    }
}

/// How many numbers there are of what is missing or asked for.
fn count_of(range: Option<Range>) -> u64 {
    match range {
        Some(range) => range.count,
        None => 0,
    }
}

/// What the messages of a datagram whose start was taken add to the sum.
fn sum_of_messages(receiver: &mut DgReceiver, datagram: Datagram<'_>) -> u64
    requires begun { IsSome receiver.old.counting }
{
    let mut datagram = datagram;
    let mut sum = 0u64;
    while let Some(payload) = datagram.next() {
        sum = sum.wrapping_add(sum_of(receiver.on_app(), payload));
    }
    sum
}

/// What a datagram adds to the sum: its length, what its messages add, and how many are asked for behind it.
fn received(receiver: &mut DgReceiver, bytes: &[u8]) -> u64 {
    let Ok(datagram) = open_datagram(bytes) else {
        return 0;
    };
    let missing = match receiver.on_start(datagram.first()) {
        Start::TooLarge => return 0,
        Start::Missing(range) => range.count,
        Start::Plain => 0,
    };
    let messages = sum_of_messages(receiver, datagram);
    (bytes.len() as u64)
        .wrapping_add(missing)
        .wrapping_add(messages)
        .wrapping_add(count_of(receiver.ask()))
}

/// Packs the payloads into so many datagrams, one behind another, and has a receiver take each.
fn sent(payloads: &Payloads, count: u64) -> Came
    requires applications { AllByRecursion IsApplication payloads.now }
{
    let mut out = [0u8; ROOM];
    let mut receiver = DgReceiver::new(Flow::Recoverable, 1, MOST);
    let mut first = 1u64;
    let mut sum = 0u64;
    for _ in 0..count {
        let (size, taken) = pack(first, payloads, 0, &mut out);
        sum = sum.wrapping_add(received(&mut receiver, &out[..size]));
        first = first.wrapping_add(taken as u64);
    }
    Came {
        sum,
        next: receiver.next(),
    }
}

/// What the word behind the section's name says; 3 where there is none.
fn count_asked<R: Env + AllocGlobal>(rt: &R) -> io::Result<u64> {
    let mut words = env::args(rt)?;
    let _ = words.next();
    let _ = words.next();
    match words.next() {
        Some(word) => Ok(number(word.as_str())),
        None => Ok(3),
    }
}

/// Prints what the section shows.
pub fn print<R: Print + Env + AllocGlobal>(rt: &R) -> io::Result<()> {
    let Some(payloads) = messages(rt.alloc()) else {
        return rt.println("no memory");
    };
    let came = sent(&payloads, count_asked(rt)?);
    let sum = came.sum;
    let next = came.next;
    println!(rt; "{sum} {next}")
}

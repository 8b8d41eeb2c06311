//! Measurements: does what is measured so many times, and prints what came of it, so that no work can be left out.
//! `codec COUNT` goes through all session messages; `write TEMPLATE COUNT` and `read TEMPLATE COUNT` through one.
//! `senders SENDERS COUNT` has so many senders submit so many messages each at a gate, at once; `plans SENDERS COUNT` only makes
//! their messages and the outbox. `waits SENDERS COUNT` has them submit on a slow disk, while the connection fetches, and prints
//! its longest wait too. `turns COUNT SIZE` has so many messages of so many bytes go from one end's outbox into the other
//! end's inbox, turn by turn. `all COUNT` goes through all messages, has four senders submit, and makes turns for messages of 10 bytes.

mod codec;
mod messages;
mod senders;
mod slow_disk;
mod turns;
mod waits;

use cases_words::number;
use codec::{read_many, write_many};
use senders::submitted;
use std::alloc::{AllocError, Global};
use std::io;
use std::rt::Env;
use std::sync::Wait;
use std::thread::Threads;
use std::time::Clock;
use turns::turned;
use waits::waited;

/// The bytes of a buffer of frames.
const ROOM: usize = 65_536;

/// A buffer with room for frames.
fn buffer(alloc: Global) -> Result<Vec<u8>, AllocError> {
    let mut bytes = Vec::new(alloc);
    bytes.resize(ROOM, 0)?;
    Ok(bytes)
}

/// A session that is known when the program runs.
fn session(count: u64) -> [u8; 16] {
    [(count % 256) as u8; 16]
}

/// The sum of some bytes.
fn sum_of_bytes(bytes: &[u8]) -> u64 {
    let mut sum = 0u64;
    for byte in bytes {
        sum = sum.wrapping_add(u64::from(*byte));
    }
    sum
}

/// What comes of writing a message so many times: the sum of the frames' sizes, and that of the bytes that stand then.
fn written(alloc: Global, template: u16, count: u64) -> Result<(u64, u64), AllocError> {
    let mut bytes = buffer(alloc)?;
    let sizes = write_many(template, &session(count), count, bytes.as_mut_slice());
    Ok((sizes, sum_of_bytes(bytes.as_slice())))
}

/// What comes of reading a message so many times, of as many frames as the buffer holds.
fn read_back(alloc: Global, template: u16, count: u64) -> Result<u64, AllocError> {
    let mut bytes = buffer(alloc)?;
    let id = session(count);
    let frame = write_many(template, &id, 1, bytes.as_mut_slice()) as usize;
    let held = (ROOM / frame.max(1)).min(400);
    let _ = write_many(template, &id, held as u64, bytes.as_mut_slice());
    let end = (held * frame).min(bytes.len());
    Ok(read_many(frame, count, &bytes.as_slice()[..end]))
}

/// The number of 16 bits that a word spells; 0 where it spells none.
fn small(word: &str) -> u16 {
    word.parse::<u16>().unwrap_or(0)
}

/// What is asked for, and how often.
#[derive(Clone, Copy)]
enum Task {
    /// All messages, four senders, and turns.
    All(u64),
    Codec(u64),
    Write(u16, u64),
    Read(u16, u64),
    Senders(u16, u64),
    Plans(u16, u64),
    Turns(u64, u64),
    Waits(u16, u64),
    /// The words ask for nothing that there is.
    Usage,
}

/// The task of a kind with one number.
fn task_of_one(kind: &str, count: &str) -> Task {
    match kind {
        "all" => Task::All(number(count)),
        "codec" => Task::Codec(number(count)),
        _ => Task::Usage,
    }
}

/// The task of a kind with two numbers.
fn task_of_two(kind: &str, first: &str, count: &str) -> Task {
    match kind {
        "write" => Task::Write(small(first), number(count)),
        "read" => Task::Read(small(first), number(count)),
        "senders" => Task::Senders(small(first), number(count)),
        "plans" => Task::Plans(small(first), number(count)),
        "turns" => Task::Turns(number(first), number(count)),
        "waits" => Task::Waits(small(first), number(count)),
        _ => Task::Usage,
    }
}

/// The task of the words behind the section's name; a short one of all kinds where there are none.
fn task_of(words: &[String]) -> Task {
    match words {
        [] => Task::All(3),
        [kind, count] => task_of_one(kind.as_str(), count.as_str()),
        [kind, first, count] => task_of_two(kind.as_str(), first.as_str(), count.as_str()),
        _ => Task::Usage,
    }
}

/// The words behind the section's name.
fn words_of<R: Env + AllocGlobal>(rt: &R) -> io::Result<Vec<String>> {
    let mut args = std::env::args(rt)?;
    let _ = args.next();
    let _ = args.next();
    let mut words = Vec::new(rt.alloc());
    for word in args {
        words.push(word)?;
    }
    Ok(words)
}

/// One line for a message.
fn print_codec<R: Print + AllocGlobal>(rt: &R, template: u16, count: u64) -> io::Result<()> {
    let (sizes, bytes) = written(rt.alloc(), template, count)?;
    let sum = read_back(rt.alloc(), template, count)?;
    println!(rt; "message {template}: {sizes} bytes written, their sum {bytes}, read {sum}")
}

/// All lines of all messages.
fn print_all_codec<R: Print + AllocGlobal>(rt: &R, count: u64) -> io::Result<()> {
    for template in 1..17u16 {
        print_codec(rt, template, count)?;
    }
    Ok(())
}

/// The line of a message that is written so many times.
fn print_written<R: Print + AllocGlobal>(rt: &R, template: u16, count: u64) -> io::Result<()> {
    let (sizes, bytes) = written(rt.alloc(), template, count)?;
    println!(rt; "{sizes} {bytes}")
}

/// The line of a message that is read so many times.
fn print_read<R: Print + AllocGlobal>(rt: &R, template: u16, count: u64) -> io::Result<()> {
    rt.println(read_back(rt.alloc(), template, count)?)
}

/// The line of so many senders at a gate, which are to run or not.
fn print_senders<R: Print + Threads + Wait + Sync + AllocGlobal>(
    rt: &R,
    senders: u16,
    count: u64,
    run: bool,
) -> io::Result<()> {
    match submitted(rt, senders, count, run) {
        Some(entries) => rt.println(entries),
        None => rt.println("no outbox"),
    }
}

/// The line of so many messages of so many bytes that go from an outbox into an inbox.
fn print_turns<R: Print + Wait + AllocGlobal>(rt: &R, count: u64, size: u64) -> io::Result<()> {
    match turned(rt, rt.alloc(), count, size) {
        Some(came) => {
            let count = came.count;
            let sum = came.sum;
            println!(rt; "{count} {sum}")
        }
        None => rt.println("no ends"),
    }
}

/// The line of so many senders at a slow disk, and of the connection's waits beside them: how many entries the outbox has then, how
/// often the connection fetched, and how many turns of senders its longest wait took.
fn print_waits<R: Print + Threads + Wait + Clock + Sync + AllocGlobal>(
    rt: &R,
    senders: u16,
    count: u64,
) -> io::Result<()> {
    match waited(rt, senders, count) {
        Some(waits) => {
            let entries = waits.entries;
            let fetches = waits.fetches;
            let longest = waits.longest;
            println!(rt; "{entries} {fetches} {longest}")
        }
        None => rt.println("no outbox"),
    }
}

/// Does all that there is, but for what takes time.
fn print_all<R: Print + Threads + Wait + Sync + AllocGlobal>(rt: &R, count: u64) -> io::Result<()> {
    print_all_codec(rt, count)?;
    print_senders(rt, 4, count, true)?;
    print_turns(rt, count, 10)
}

/// Does a task, and prints what came of it.
fn print_task<R: Print + Threads + Wait + Clock + Sync + AllocGlobal>(
    rt: &R,
    task: Task,
) -> io::Result<()> {
    match task {
        Task::All(count) => print_all(rt, count),
        Task::Codec(count) => print_all_codec(rt, count),
        Task::Write(template, count) => print_written(rt, template, count),
        Task::Read(template, count) => print_read(rt, template, count),
        Task::Senders(senders, count) => print_senders(rt, senders, count, true),
        Task::Plans(senders, count) => print_senders(rt, senders, count, false),
        Task::Turns(count, size) => print_turns(rt, count, size),
        Task::Waits(senders, count) => print_waits(rt, senders, count),
        Task::Usage => rt.println(
            "all COUNT, codec COUNT, write TEMPLATE COUNT, read TEMPLATE COUNT, senders SENDERS COUNT, plans SENDERS COUNT, turns COUNT SIZE or waits SENDERS COUNT",
        ),
    }
}

/// Prints what the section shows.
pub fn print<R: Print + Env + Threads + Wait + Clock + Sync + AllocGlobal>(
    rt: &R,
) -> io::Result<()> {
    let words = words_of(rt)?;
    print_task(rt, task_of(words.as_slice()))
}

//! The receiver of an idempotent flow over announcements and messages.

use cases_words::{halves, number};
use flow_idem::Applied;
use std::alloc::{AllocError, Global};

/// Adds what an announcement jumps over.
fn push_announced(
    line: &mut String,
    receiver: &mut Applied,
    next_seq: u64,
) -> Result<(), AllocError> {
    if receiver.room() == 0 {
        return line.push_str("no room");
    }
    if next_seq < receiver.next() {
        return line.push_str("goes back");
    }
    match receiver.announce(next_seq) {
        Some(jump) => {
            let (from, count) = (jump.from, jump.count);
            write!(line, "jumps ({from}, {count})")
        }
        None => line.push_str("jumps none"),
    }
}

/// Adds the number of a message.
fn push_heard(line: &mut String, receiver: &mut Applied) -> Result<(), AllocError> {
    if receiver.next() == u64::MAX {
        return line.push_str("no number");
    }
    let number = receiver.on_app();
    write!(line, "applies {number}")
}

/// Adds how often a number was announced that jumps over one, each time with a message behind it.
fn push_jumping(line: &mut String, receiver: &mut Applied, count: u64) -> Result<(), AllocError> {
    for jumps in 0..count {
        if receiver.room() == 0 || receiver.next() == u64::MAX {
            return write!(line, "{jumps} jumps");
        }
        let next = receiver.next() + 1;
        let _ = receiver.announce(next);
        if receiver.next() < u64::MAX {
            let _ = receiver.on_app();
        }
    }
    write!(line, "{count} jumps")
}

/// Adds the runs that are to be told.
fn push_told(line: &mut String, receiver: &Applied) -> Result<(), AllocError> {
    line.push_str("told")?;
    for place in 0..receiver.run_count() {
        let run = receiver.run(place);
        let (from, count) = (run.from, run.count);
        write!(line, " ({from}, {count})")?;
    }
    Ok(())
}

/// Adds what an event shows that has no number.
fn push_plain(line: &mut String, receiver: &mut Applied, word: &str) -> Result<(), AllocError> {
    match word {
        "message" => push_heard(line, receiver),
        "reserve" => {
            receiver.reserve()?;
            let room = receiver.room();
            write!(line, "room {room}")
        }
        "turn" => {
            push_told(line, receiver)?;
            receiver.forget_runs();
            Ok(())
        }
        "cut" => {
            receiver.forget_runs();
            line.push_str("cut")
        }
        _ => line.push_str("?"),
    }
}

/// Adds what an event shows.
fn push_event(line: &mut String, receiver: &mut Applied, word: &str) -> Result<(), AllocError> {
    match word.split_once("-") {
        Some(("announce", digits)) => push_announced(line, receiver, number(digits)),
        Some(("jumping", digits)) => push_jumping(line, receiver, number(digits)),
        Some(("applied", digits)) => {
            let is_applied = receiver.is_applied(number(digits));
            write!(line, "{digits} {is_applied}")
        }
        _ => push_plain(line, receiver, word),
    }
}

/// Adds what the events show of a receiver, one behind another.
fn push_events(line: &mut String, receiver: &mut Applied, words: &str) -> Result<(), AllocError> {
    for word in words.split(" ") {
        line.push_str(" ")?;
        push_event(line, receiver, word)?;
        line.push_str(",")?;
    }
    let (next, room) = (receiver.next(), receiver.room());
    write!(line, " next {next} room {room}")
}

/// What the events show of a receiver that begins at a number.
pub fn flow_line(alloc: Global, words: &str) -> Result<String, AllocError> {
    let (first, events) = halves(words);
    let mut receiver = Applied::new(alloc, number(first))?;
    let mut line = format!(in alloc; "from {first}:")?;
    push_events(&mut line, &mut receiver, events)?;
    Ok(line)
}

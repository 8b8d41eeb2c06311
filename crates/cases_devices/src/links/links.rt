//! Calls of links in memory: what each gave.

use crate::links::echoes::{echo_left, echo_right, echo_tape};
use cases_words::{bytes, digits, halves, number};
use gw_link_fakes::{Calls, MemTape, Pipe};
use gw_links::{Got, Link};
use gw_outside::Bytes;
use std::alloc::{AllocError, Global};

/// What a receive into a piece of four bytes gave.
fn received<L: Link>(alloc: Global, link: &mut L) -> Result<String, AllocError> {
    let mut piece = [0; 4];
    match link.recv(&mut piece, 0) {
        Ok(Got::Bytes(count)) => {
            format!(in alloc; " {}", digits(alloc, piece.split_at(count).0)?)
        }
        Ok(got) => format!(in alloc; " {got:?}"),
        Err(fault) => format!(in alloc; " {fault:?}"),
    }
}

/// A call of a link through the trait.
fn called<L: Link>(alloc: Global, link: &mut L, call: &str) -> Result<String, AllocError> {
    match halves(call) {
        ("recv", _) => received(alloc, link),
        ("send", word) => {
            let taken = link.send(bytes(alloc, word)?.as_slice());
            format!(in alloc; " {taken:?}")
        }
        _ => format!(in alloc; " no call"),
    }
}

/// A tape whose call of this number fails; of no number, one that never fails.
fn tape(alloc: Global, given: &[u8], room: u64, fail: &str) -> Result<MemTape, AllocError> {
    let given = Bytes::from(Vec::from_slice(alloc, given)?);
    if fail == "none" {
        return MemTape::without_faults(alloc, given, room as usize);
    }
    let fail = Calls::from(Vec::from_slice(alloc, &[number(fail)])?);
    MemTape::new(alloc, given, room as usize, fail)
}

/// A call of a tape, or an echo over it.
fn tape_call(alloc: Global, tape: &mut MemTape, call: &str) -> Result<String, AllocError> {
    if call == "echo" {
        return format!(in alloc; " {:?}", echo_tape(tape, &mut [0; 4]));
    }
    called(alloc, tape, call)
}

/// Calls of a tape, `BYTES ROOM FAIL CALL, CALL, ..`: what each gave, and what the tape has given and taken then.
pub fn tape_line(alloc: Global, rest: &str) -> Result<String, AllocError> {
    let (given, others) = halves(rest);
    let (room, others) = halves(others);
    let (fail, calls) = halves(others);
    let mut tape = tape(alloc, bytes(alloc, given)?.as_slice(), number(room), fail)?;
    let mut shown = format!(in alloc; "tape")?;
    for call in calls.split(", ") {
        shown.push_str(tape_call(alloc, &mut tape, call)?.as_str())?;
    }
    let given = digits(alloc, tape.given())?;
    let taken = digits(alloc, tape.taken())?;
    format!(in alloc; "{shown}, given {given}, taken {taken}")
}

/// A call of an end of a pipe, an echo at it, or a cut.
fn pipe_call(alloc: Global, pipe: &mut Pipe, call: &str) -> Result<String, AllocError> {
    match halves(call) {
        ("left", "echo") => format!(in alloc; " {:?}", echo_left(pipe, &mut [0; 4])),
        ("right", "echo") => format!(in alloc; " {:?}", echo_right(pipe, &mut [0; 4])),
        ("left", call) => called(alloc, &mut pipe.left(), call),
        ("right", call) => called(alloc, &mut pipe.right(), call),
        _ => {
            pipe.cut();
            format!(in alloc; " cut")
        }
    }
}

/// Calls of a pipe, `ROOM CALL, CALL, ..`: what each gave.
pub fn pipe_line(alloc: Global, rest: &str) -> Result<String, AllocError> {
    let (room, calls) = halves(rest);
    let mut pipe = Pipe::new(alloc, number(room) as usize)?;
    let mut shown = format!(in alloc; "pipe")?;
    for call in calls.split(", ") {
        shown.push_str(pipe_call(alloc, &mut pipe, call)?.as_str())?;
    }
    Ok(shown)
}

//! A source and a sink in memory: pieces, failing calls and room.

ghost use Rattle.std.specs.Prelude.{◌<◌, length};

use crate::devices::failing::failing;
use cases_words::{bytes, digits, halves, number};
use gw_fakes::{MemSink, MemSource};
use gw_outside::{Bytes, Failed, Sink, Source, push_all};
use std::alloc::{AllocError, Global};

/// A pull through the trait.
fn pulled<S: Source>(source: &mut S, piece: &mut [u8]) -> Result<usize, Failed>
    requires { 0 < length piece.old }
{
    source.pull(piece)
}

/// Pushes of all bytes through the trait.
fn pushed<K: Sink>(sink: &mut K, bytes: &[u8]) -> Result<(), Failed> {
    push_all(sink, bytes)
}

/// A source whose pull of this number fails; of no number, one that never fails.
fn source(alloc: Global, content: &str, piece: u64, fail: &str) -> Result<MemSource, AllocError> {
    let piece = (piece as usize).max(1);
    let content = Bytes::from(bytes(alloc, content)?);
    if fail == "none" {
        return Ok(MemSource::without_faults(alloc, content, piece));
    }
    Ok(MemSource::new(content, piece, failing(alloc, fail)?))
}

/// Adds a pull, and the buffer's first two bytes behind it.
fn add_pull(
    alloc: Global,
    source: &mut MemSource,
    into: &mut [u8; 3],
    line: &mut String,
) -> Result<(), AllocError> {
    let given = pulled(source, into);
    let front = digits(alloc, &into[..2])?;
    write!(line, " {given:?} {front}")
}

fn add_pulls(
    alloc: Global,
    source: &mut MemSource,
    count: u64,
    line: &mut String,
) -> Result<(), AllocError> {
    let mut into = [0; 3];
    for _ in 0..count {
        add_pull(alloc, source, &mut into, line)?;
    }
    Ok(())
}

/// Pulls into a buffer of three bytes: `PIECE FAIL COUNT CONTENT`.
pub fn add_source(alloc: Global, rest: &str, line: &mut String) -> Result<(), AllocError> {
    let (piece, others) = halves(rest);
    let (fail, others) = halves(others);
    let (count, content) = halves(others);
    line.push_str("source")?;
    let mut source = source(alloc, content, number(piece), fail)?;
    add_pulls(alloc, &mut source, number(count), line)
}

/// A sink whose push of this number fails; of no number, one that never fails.
fn sink(alloc: Global, room: u64, fail: &str) -> Result<MemSink, AllocError> {
    let room = room as usize;
    if fail == "none" {
        return MemSink::without_faults(alloc, room);
    }
    MemSink::new(alloc, room, failing(alloc, fail)?)
}

fn add_push(
    alloc: Global,
    sink: &mut MemSink,
    word: &str,
    line: &mut String,
) -> Result<(), AllocError> {
    let bytes = bytes(alloc, word)?;
    let given = pushed(sink, bytes.as_slice());
    write!(line, " {given:?}")
}

/// Adds each push, and what the sink has taken then.
fn add_pushes(
    alloc: Global,
    sink: &mut MemSink,
    pieces: &str,
    line: &mut String,
) -> Result<(), AllocError> {
    for piece in pieces.split(" ") {
        add_push(alloc, sink, piece, line)?;
    }
    let taken = digits(alloc, sink.taken())?;
    write!(line, ", taken {taken}")
}

/// Pushes: `ROOM FAIL BYTES..`, where `-` is no bytes.
pub fn add_sink(alloc: Global, rest: &str, line: &mut String) -> Result<(), AllocError> {
    let (room, others) = halves(rest);
    let (fail, pieces) = halves(others);
    line.push_str("sink")?;
    let mut sink = sink(alloc, number(room), fail)?;
    add_pushes(alloc, &mut sink, pieces, line)
}

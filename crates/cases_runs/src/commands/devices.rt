//! A run over devices in memory that fail at chosen calls.

ghost use Rattle.std.specs.Prelude.{◌<◌};

use cmd_run::{Outside, Status, run};
use gw_fakes::{Calls, MemDisk, MemSink, MemSource};
use gw_outside::{Bytes, Disk, Sink, Source};
use std::alloc::{AllocError, Global};
use std::sync::Wait;

/// The greatest piece of INPUT, the call of each device that fails, and the room of both outputs; a call 0 is none.
#[derive(Clone, Copy)]
pub struct Numbers {
    pub piece: usize,
    pub config: u64,
    pub input: u64,
    pub wire: u64,
    pub out: u64,
    pub room: usize,
}

impl Numbers {
    /// No call fails, and INPUT comes in pieces of this size.
    pub fn in_pieces(piece: usize) -> Numbers {
        Numbers {
            piece,
            config: 0,
            input: 0,
            wire: 0,
            out: 0,
            room: 4096,
        }
    }
}

/// What a run is over: the words of its command, CONFIG and INPUT.
#[derive(Clone, Copy)]
pub struct Case<'a> {
    pub words: &'static str,
    pub config: &'a [u8],
    pub input: &'a [u8],
}

/// How a run ended: its status, and the outputs.
#[derive(Drop)]
pub struct Outcome {
    status: Status,
    wire: MemSink,
    out: MemSink,
}

impl Outcome {
    /// The number of the status.
    pub fn code(&self) -> u8 {
        self.status.code()
    }

    /// The bytes of WIRE.
    pub fn wire(&self) -> &[u8] {
        self.wire.taken()
    }

    /// The bytes of OUT.
    pub fn out(&self) -> &[u8] {
        self.out.taken()
    }
}

fn calls(alloc: Global, fail: u64) -> Result<Calls, AllocError> {
    Ok(Calls::from(Vec::from_slice(alloc, &[fail])?))
}

fn source(alloc: Global, bytes: &[u8], piece: usize, fail: u64) -> Result<MemSource, AllocError>
    requires { 0 < piece }
{
    let calls = calls(alloc, fail)?;
    let bytes = Vec::from_slice(alloc, bytes)?;
    Ok(MemSource::new(Bytes::from(bytes), piece, calls))
}

fn sink(alloc: Global, room: usize, fail: u64) -> Result<MemSink, AllocError> {
    MemSink::new(alloc, room, calls(alloc, fail)?)
}

/// CONFIG and INPUT.
#[derive(Drop)]
struct Sources {
    config: MemSource,
    input: MemSource,
}

/// WIRE and OUT.
#[derive(Drop)]
struct Sinks {
    wire: MemSink,
    out: MemSink,
}

/// The disks of OUTBOX and INBOX, which no case names.
#[derive(Drop)]
struct Disks {
    outbox: MemDisk,
    inbox: MemDisk,
}

fn fresh_sources(alloc: Global, case: Case<'_>, numbers: Numbers) -> Result<Sources, AllocError> {
    let config = source(alloc, case.config, 64, numbers.config)?;
    let input = source(alloc, case.input, numbers.piece.max(1), numbers.input)?;
    Ok(Sources { config, input })
}

fn fresh_sinks(alloc: Global, numbers: Numbers) -> Result<Sinks, AllocError> {
    let wire = sink(alloc, numbers.room, numbers.wire)?;
    let out = sink(alloc, numbers.room, numbers.out)?;
    Ok(Sinks { wire, out })
}

fn fresh_disks(alloc: Global) -> Result<Disks, AllocError> {
    let outbox = MemDisk::without_faults(alloc, 0)?;
    let inbox = MemDisk::without_faults(alloc, 0)?;
    Ok(Disks { outbox, inbox })
}

/// The devices of a case.
fn fresh_devices(
    alloc: Global,
    case: Case<'_>,
    numbers: Numbers,
) -> Result<Outside<MemSource, MemSink, MemDisk>, AllocError> {
    let sources = fresh_sources(alloc, case, numbers)?;
    let sinks = fresh_sinks(alloc, numbers)?;
    let disks = fresh_disks(alloc)?;
    Ok(Outside {
        config: sources.config,
        input: sources.input,
        wire: sinks.wire,
        out: sinks.out,
        out_disk: disks.outbox,
        in_disk: disks.inbox,
    })
}

/// Adds the words of a command.
fn push_words(alloc: Global, words: &mut Vec<String>, text: &str) -> Result<(), AllocError> {
    for word in text.split(" ") {
        let word = String::from_str(alloc, word)?;
        words.push(word)?;
    }
    Ok(())
}

/// The words of a command.
fn split(alloc: Global, text: &str) -> Result<Vec<String>, AllocError> {
    let mut words = Vec::new(alloc);
    push_words(alloc, &mut words, text)?;
    Ok(words)
}

/// Runs words over devices of any kind. Its caller needs no more of what `run` promises than that they come back.
fn run_over<R: Wait, S: Source, K: Sink, D: Disk>(
    rt: &R,
    alloc: Global,
    words: &[String],
    outside: Outside<S, K, D>,
) -> (Status, Outside<S, K, D>) {
    run(rt, alloc, words, outside)
}

/// How a run ended. It closes the devices of which no case asks more.
fn outcome_of(status: Status, outside: Outside<MemSource, MemSink, MemDisk>) -> Outcome {
    let Outside {
        config: _,
        input: _,
        wire,
        out,
        out_disk: _,
        in_disk: _,
    } = outside;
    Outcome { status, wire, out }
}

/// Runs a case.
pub fn ended<R: Wait>(
    rt: &R,
    alloc: Global,
    case: Case<'_>,
    numbers: Numbers,
) -> Result<Outcome, AllocError> {
    let words = split(alloc, case.words)?;
    let outside = fresh_devices(alloc, case, numbers)?;
    let (status, outside) = run_over(rt, alloc, words.as_slice(), outside);
    Ok(outcome_of(status, outside))
}

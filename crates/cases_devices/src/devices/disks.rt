//! A disk in memory: what it gives, which calls fail, and what each pick of a stop leaves.

use crate::devices::failing::failing;
use cases_words::{bytes, digits, halves, number};
use gw_fakes::{MemDisk, Pick};
use gw_outside::{Disk, Failed};
use std::alloc::{AllocError, Global};

/// A disk of a room, the number of its call that fails, and its calls.
#[derive(Clone, Copy)]
struct Case<'a> {
    room: u64,
    fail: &'a str,
    calls: &'a str,
}

/// How many bytes a read gave.
fn read<D: Disk>(disk: &mut D, at: u64) -> Result<usize, Failed> {
    disk.read_at(at, &mut [0; 4])
}

/// A sync through the trait.
fn synced<D: Disk>(disk: &mut D) -> Result<(), Failed> {
    disk.sync()
}

/// The length through the trait.
fn length<D: Disk>(disk: &mut D) -> Result<u64, Failed> {
    disk.length()
}

/// A write, where the disk has such a place.
fn write(disk: &mut MemDisk, at: u64, bytes: &[u8]) -> Result<(), Failed> {
    if at > disk.content().len() as u64 {
        return Err(Failed);
    }
    disk.write_at(at, bytes)
}

/// Makes a call, and adds what it gave.
fn add_call(
    alloc: Global,
    disk: &mut MemDisk,
    call: &str,
    line: &mut String,
) -> Result<(), AllocError> {
    let (kind, others) = halves(call);
    let (at, content) = halves(others);
    let bytes = bytes(alloc, content)?;
    match kind {
        "write" => {
            let given = write(disk, number(at), bytes.as_slice());
            write!(line, " {given:?}")
        }
        "sync" => {
            let given = synced(disk);
            write!(line, " {given:?}")
        }
        "read" => {
            let given = read(disk, number(at));
            write!(line, " {given:?}")
        }
        "fuse" => {
            disk.fuse(number(at));
            line.push_str(" fuse")
        }
        _ => line.push_str(" no call"),
    }
}

/// A disk whose call of this number fails; of no number, one that never fails.
fn disk(alloc: Global, room: u64, fail: &str) -> Result<MemDisk, AllocError> {
    if fail == "none" {
        return MemDisk::without_faults(alloc, room as usize);
    }
    MemDisk::new(alloc, room as usize, failing(alloc, fail)?)
}

/// Adds the bytes of a disk.
fn add_content(alloc: Global, disk: &MemDisk, line: &mut String) -> Result<(), AllocError> {
    let content = digits(alloc, disk.content())?;
    write!(line, " [{content}]")
}

/// Adds what a stop left, and how long it is.
fn add_left(alloc: Global, disk: &mut MemDisk, line: &mut String) -> Result<(), AllocError> {
    add_content(alloc, disk, line)?;
    let length = length(disk);
    write!(line, " {length:?}")
}

/// Adds what a stop leaves, how long it is, and what one more stop leaves.
fn add_stopped(
    alloc: Global,
    disk: MemDisk,
    pick: Pick,
    line: &mut String,
) -> Result<(), AllocError> {
    let mut disk = disk.stop(pick);
    add_left(alloc, &mut disk, line)?;
    let again = disk.stop(Pick::Noise);
    add_content(alloc, &again, line)
}

fn add_calls(
    alloc: Global,
    disk: &mut MemDisk,
    calls: &str,
    line: &mut String,
) -> Result<(), AllocError> {
    for call in calls.split(", ") {
        add_call(alloc, disk, call, line)?;
    }
    Ok(())
}

/// Adds what the calls give on a disk of this room, and what a stop leaves then.
fn add_played(
    alloc: Global,
    case: Case<'_>,
    pick: Pick,
    line: &mut String,
) -> Result<(), AllocError> {
    line.push_str("disk")?;
    let mut disk = disk(alloc, case.room, case.fail)?;
    add_calls(alloc, &mut disk, case.calls, line)?;
    write!(line, " | {pick:?}")?;
    add_stopped(alloc, disk, pick, line)
}

/// Calls on a disk, `ROOM FAIL CALL, CALL, ..`: a line for each pick of a stop behind them.
pub fn add_disk(alloc: Global, rest: &str, line: &mut String) -> Result<(), AllocError> {
    let (room, others) = halves(rest);
    let (fail, calls) = halves(others);
    let case = Case {
        room: number(room),
        fail,
        calls,
    };
    add_played(alloc, case, Pick::Old, line)?;
    line.push_str("\n")?;
    add_played(alloc, case, Pick::Kept, line)?;
    line.push_str("\n")?;
    add_played(alloc, case, Pick::Noise, line)
}

//! Cases of journals with moments, of both boxes over them, and of damaged journals of either format: reads a file of cases, plays each
//! line on a disk in memory of its own, and prints its steps with what each gave; and plays sequences of drawn calls and stops, and
//! compares each with a plain list; and a measurement, `bench`. What it has to print stands in `stdout`, worked out by hand from the format.
#![tactic(auto)]

mod bench;
mod damage;
mod disks;
mod drawn;
mod ending;
mod inboxes;
mod met;
mod moving;
mod noted;
mod opened;
mod outboxes;
mod plain;
mod records;
mod sequence;
mod sequences;

use crate::disks::{begun, limits_of};
use crate::opened::step;
use crate::sequences::shown;
use cases_words::{asked, begins};
use gw_fakes::MemDisk;
use jr_dated::Limits;
use std::alloc::{AllocError, Global};
use std::rt::Files;
use std::{fs, io};

/// Takes the steps on a disk, one behind another.
fn play(
    alloc: Global,
    disk: MemDisk,
    limits: Limits,
    steps: &str,
    told: &mut String,
) -> Result<MemDisk, AllocError> {
    let mut disk = disk;
    for words in steps.split("; ") {
        disk = step(alloc, disk, limits, words, told)?;
        told.push_str(";")?;
    }
    Ok(disk)
}

/// What a case shows, `DISK: STEP; STEP; ..`, where a disk was left behind. A note stands as it is.
fn add_line(
    alloc: Global,
    left: MemDisk,
    line: &str,
    told: &mut String,
) -> Result<MemDisk, AllocError> {
    match line.split_once(": ") {
        Some((disk, steps)) if !line.starts_with("#") => {
            write!(told, "{disk}:")?;
            play(
                alloc,
                begun(alloc, disk, left)?,
                limits_of(disk),
                steps,
                told,
            )
        }
        _ => {
            told.push_str(line)?;
            Ok(left)
        }
    }
}

/// Prints what the cases of this file show.
fn print<R: Files + Print + AllocGlobal>(rt: &R, file: &str) -> io::Result<()> {
    let text = fs::read_to_string(rt, file)?;
    let mut disk = MemDisk::without_faults(rt.alloc(), 0)?;
    for line in text.lines() {
        let mut told = String::new(rt.alloc());
        disk = add_line(rt.alloc(), disk, line, &mut told)?;
        rt.println(told)?;
    }
    Ok(())
}

fn main(rt: HostRuntime) -> io::Result<()> {
    let asked = asked(&rt)?;
    if begins(&rt, &asked, "journals")? {
        print(&rt, "journals.txt")?;
    }
    if begins(&rt, &asked, "boxes")? {
        print(&rt, "boxes.txt")?;
    }
    if begins(&rt, &asked, "sequences")? {
        let seeds = fs::read_to_string(&rt, "sequences.txt")?;
        for words in seeds.lines() {
            rt.println(shown(rt.alloc(), words)?)?;
        }
    }
    if begins(&rt, &asked, "bench")? {
        bench::print(&rt)?;
    }
    Ok(())
}

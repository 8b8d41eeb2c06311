//! Cases of devices: reads `devices.txt`, plays the calls of each line on a source, a sink, a disk or lines in memory or on a file,
//! and prints what each call gave. What it has to print stands in `stdout`, worked out by hand.

mod appended;
mod disks;
mod failing;
mod files;
mod lines;
mod streams;

use std::alloc::{AllocError, Global};
use std::fs::{self, File, Files};
use std::io;

/// What a case of a device in memory shows.
fn add_case(alloc: Global, kind: &str, rest: &str, line: &mut String) -> Result<(), AllocError> {
    match kind {
        "source" => streams::add_source(alloc, rest, line),
        "sink" => streams::add_sink(alloc, rest, line),
        "disk" => disks::add_disk(alloc, rest, line),
        "lines" => lines::add_lines(alloc, rest, line),
        _ => line.push_str("no case"),
    }
}

fn print_case<R: Files<File = File> + Print + AllocGlobal>(rt: &R, line: &str) -> io::Result<()> {
    let mut told = String::new(rt.alloc());
    match line.split_once(": ") {
        Some(("file", calls)) => files::add_file(rt, calls, &mut told)?,
        Some(("append", path)) => appended::add_appended(rt, path, &mut told)?,
        Some((kind, rest)) => add_case(rt.alloc(), kind, rest, &mut told)?,
        None => told.push_str(line)?,
    }
    rt.println(told)
}

/// Prints what the section shows.
pub fn print<R: Files<File = File> + Print + AllocGlobal>(rt: &R) -> io::Result<()> {
    let text = fs::read_to_string(rt, "devices.txt")?;
    for line in text.lines() {
        if line.starts_with("#") {
            rt.println(line)?;
        } else {
            print_case(rt, line)?;
        }
    }
    Ok(())
}

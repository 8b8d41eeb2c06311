//! Cases of links, dialers and clocks in memory: reads `links.txt`, plays the calls of each line, and prints what each call
//! gave. What it has to print stands in `stdout`, worked out by hand. The echoes are the generic ones of `gw_links`, called at
//! a tape, at the ends of a pipe and at a dialer, with contracts that say exactly what becomes of these.

mod clocks;
mod dialers;
mod echoes;
mod links;

use std::alloc::{AllocError, Global};
use std::rt::Files;
use std::{fs, io};

/// What a case shows.
fn line_of(alloc: Global, kind: &str, rest: &str) -> Result<String, AllocError> {
    match kind {
        "tape" => links::tape_line(alloc, rest),
        "pipe" => links::pipe_line(alloc, rest),
        "dialer" => dialers::dialer_line(alloc, rest),
        "clock" => clocks::clock_line(alloc, rest),
        _ => format!(in alloc; "no case"),
    }
}

/// Prints what the section shows.
pub fn print<R: Files + Print + AllocGlobal>(rt: &R) -> io::Result<()> {
    let text = fs::read_to_string(rt, "links.txt")?;
    for line in text.lines() {
        match line.split_once(": ") {
            Some((kind, rest)) if !line.starts_with("#") => {
                rt.println(line_of(rt.alloc(), kind, rest)?)?;
            }
            _ => rt.println(line)?,
        }
    }
    Ok(())
}

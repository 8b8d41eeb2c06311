//! Cases of senders that submit their plans through one gate at once: that they run at once, plans of different lengths, limits
//! that are reached, and a disk that fails at each call in turn. Reads `senders.txt`. What it has to print stands in `stdout`, worked
//! out by hand, and is the same whatever the threads' order.

mod boxes;
mod cases;
mod doors;
mod runs;

use crate::senders_at_once::cases::add_case;
use std::alloc::AllocError;
use std::rt::Files;
use std::sync::Wait;
use std::thread::Threads;
use std::{fs, io};

/// What a case shows, `KIND WORDS: MESSAGES OF EACH SENDER`. A note stands as it is.
fn add_line<R: Threads + Wait + Sync + AllocGlobal>(
    rt: &R,
    line: &str,
    told: &mut String,
) -> Result<(), AllocError> {
    told.push_str(line)?;
    match line.split_once(": ") {
        Some((kind, lengths)) if !line.starts_with("#") => {
            told.push_str(" -> ")?;
            add_case(rt.alloc(), kind, lengths, rt, told)
        }
        _ => Ok(()),
    }
}

/// Prints what the section shows.
pub fn print<R: Files + Print + Threads + Wait + Sync + AllocGlobal>(rt: &R) -> io::Result<()> {
    let text = fs::read_to_string(rt, "senders.txt")?;
    for line in text.lines() {
        let mut told = String::new(rt.alloc());
        add_line(rt, line, &mut told)?;
        rt.println(told)?;
    }
    Ok(())
}

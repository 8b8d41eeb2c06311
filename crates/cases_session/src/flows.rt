//! Cases of the receiver of an idempotent flow, of the timers and of the checks of a handshake: reads the
//! cases of `flows.txt`, and prints what each case shows. What it has to print stands in `stdout`, worked out by hand.

mod flows;
mod handshakes;
mod timers;

use std::alloc::{AllocError, Global};
use std::rt::Files;
use std::{fs, io};

/// What a case shows.
fn line_of(alloc: Global, line: &str) -> Result<String, AllocError> {
    match line.split_once(": ") {
        Some(("timers", words)) => timers::timers_line(alloc, words),
        Some(("flow", words)) => flows::flow_line(alloc, words),
        Some(("negotiate", words)) => handshakes::negotiate_line(alloc, words),
        Some(("establish", words)) => handshakes::establish_line(alloc, words),
        Some(("reply", words)) => handshakes::reply_line(alloc, words),
        _ => line.to_string(alloc),
    }
}

/// Prints what the section shows.
pub fn print<R: Files + Print + AllocGlobal>(rt: &R) -> io::Result<()> {
    let text = fs::read_to_string(rt, "flows.txt")?;
    for line in text.lines() {
        rt.println(line_of(rt.alloc(), line)?)?;
    }
    Ok(())
}

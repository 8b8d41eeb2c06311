//! Cases of versions of schemas: reads `skew.txt`, and prints what is said of each. What it has to print stands in
//! `stdout`, worked out by hand.

mod cases;

use std::rt::Files;
use std::{fs, io};

/// Prints what the section shows.
pub fn print<R: Files + Print + AllocGlobal>(rt: &R) -> io::Result<()> {
    let text = fs::read_to_string(rt, "skew.txt")?;
    for line in text.lines() {
        cases::print_case(rt, line)?;
    }
    Ok(())
}

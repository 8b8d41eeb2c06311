//! Cases of datagrams: reads `datagrams.txt` and the frames of `datagram-frames.txt`, and prints what each case shows. What it has to print
//! stands in `stdout`, worked out by hand from the profile. A line that begins with `#` is a heading.

mod packing;
mod receiving;

use cases_words::{Named, halves};
use std::alloc::{AllocError, Global};
use std::rt::Files;
use std::{fs, io};

/// Adds what a case shows.
fn add_case(
    alloc: Global,
    frames: Named<'_>,
    line: &str,
    told: &mut String,
) -> Result<(), AllocError> {
    let (kind, words) = halves(line);
    match kind {
        "pack" => packing::add_packed(alloc, words, told),
        "sizes" => packing::add_sizes(alloc, words, told),
        "open" => packing::add_opened(alloc, frames, words, told),
        "starts" => receiving::add_starts(alloc, words, told),
        "orders" => receiving::add_orders(alloc, words, told),
        _ => Ok(()),
    }
}

/// Prints what the section shows.
pub fn print<R: Files + Print + AllocGlobal>(rt: &R) -> io::Result<()> {
    let frames = fs::read_to_string(rt, "datagram-frames.txt")?;
    let text = fs::read_to_string(rt, "datagrams.txt")?;
    for line in text.lines() {
        let mut told = line.to_string(rt.alloc())?;
        add_case(rt.alloc(), Named::of(frames.as_str()), line, &mut told)?;
        rt.println(told)?;
    }
    Ok(())
}

//! Cases of frames and of the session machine: reads the frames of `frames.txt` and the cases of
//! `sessions.txt`, and prints what each case shows. What it has to print stands in `stdout`, worked out by hand.

mod ends;
mod frames;

use crate::sessions::ends::Sources;
use cases_made::entries_of;
use cases_words::Named;
use std::alloc::{AllocError, Global};
use std::rt::Files;
use std::{fs, io};

/// The templates of the entries that an end may send.
const TEMPLATES: [u8; 5] = [7; 5];

/// Adds what a case shows.
fn push_line(
    alloc: Global,
    line: &mut String,
    sources: Sources<'_>,
    case: &str,
) -> Result<(), AllocError> {
    let Some((kind, words)) = case.split_once(": ") else {
        return line.push_str(case);
    };
    match kind {
        "first" | "fronts" | "framer" => {
            frames::push_single(alloc, line, sources.named, kind, words)
        }
        "pieces" => frames::push_pieces(alloc, line, sources.named, words),
        "parts" => frames::push_parts(alloc, line, sources.named, words),
        "end" => ends::push_end(alloc, line, sources, words),
        _ => line.push_str(case),
    }
}

/// Prints what a case shows.
fn print_case<R: Print + AllocGlobal>(rt: &R, sources: Sources<'_>, case: &str) -> io::Result<()> {
    let mut line = String::new(rt.alloc());
    push_line(rt.alloc(), &mut line, sources, case)?;
    rt.println(line)
}

/// Prints what each case shows.
fn print_cases<R: Print + AllocGlobal>(
    rt: &R,
    sources: Sources<'_>,
    cases: &str,
) -> io::Result<()> {
    for case in cases.lines() {
        print_case(rt, sources, case)?;
    }
    Ok(())
}

/// Prints what the section shows.
pub fn print<R: Files + Print + AllocGlobal>(rt: &R) -> io::Result<()> {
    let table = fs::read_to_string(rt, "frames.txt")?;
    let cases = fs::read_to_string(rt, "sessions.txt")?;
    let entries = entries_of(rt.alloc(), &TEMPLATES)?;
    let sources = Sources {
        named: Named::of(table.as_str()),
        entries: entries.as_slice(),
    };
    print_cases(rt, sources, cases.as_str())
}

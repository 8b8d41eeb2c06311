//! Cases of decoding and encoding: reads `codec.txt`, and prints what decoding and a view say of bytes, what encoding makes of
//! messages, and what texts are read as. What it has to print stands in `stdout`, worked out by hand from the format.
//!
//! A line that begins with `#` is a heading. `schema: FILE` is the schema of the lines behind it.

mod decoding;
mod encoding;
mod messages;
mod printed;
mod texts;

use sbe_layout::Plan;
use schema_load::load;
use std::alloc::{AllocError, Global};
use std::rt::Files;
use std::{fs, io};

/// The plan of the schema in a file; none where it has none.
fn plan_of<R: Files + AllocGlobal>(rt: &R, file: &str) -> Option<Plan> {
    let text = fs::read(rt, file).ok()?;
    load(rt.alloc(), text.as_slice()).ok()
}

/// Prints a line of the file, and what it shows.
fn print_line<R: Print + AllocGlobal>(rt: &R, plan: Option<&Plan>, line: &str) -> io::Result<()> {
    rt.println(line)?;
    match plan {
        Some(plan) => rt.print(shown(rt.alloc(), plan, line)?),
        None => Ok(()),
    }
}

/// The lines of a case; nothing for another line.
fn shown(alloc: Global, plan: &Plan, line: &str) -> Result<String, AllocError> {
    let mut told = String::new(alloc);
    if let Some((kind, rest)) = line.split_once(": ") {
        add_case(alloc, plan, kind, rest, &mut told)?;
    }
    Ok(told)
}

fn add_case(
    alloc: Global,
    plan: &Plan,
    kind: &str,
    rest: &str,
    told: &mut String,
) -> Result<(), AllocError> {
    match kind {
        "message" => decoding::add_message(alloc, plan, rest, told),
        "cuts" => decoding::add_cuts(alloc, plan, rest, told),
        "write" => encoding::add_written(alloc, plan, rest, told),
        "text" => texts::add_read(alloc, plan, rest, told),
        "repeat" => decoding::add_repeated(alloc, plan, rest, told),
        _ => Ok(()),
    }
}

/// Prints what the section shows.
pub fn print<R: Files + Print + AllocGlobal>(rt: &R) -> io::Result<()> {
    let text = fs::read_to_string(rt, "codec.txt")?;
    let mut plan = None;
    for line in text.lines() {
        if let Some(file) = line.strip_prefix("schema: ") {
            plan = plan_of(rt, file);
        }
        print_line(rt, plan.as_ref(), line)?;
    }
    Ok(())
}

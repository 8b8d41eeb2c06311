//! Cases of primitives, of the numbers that bytes spell, and of lists and the values of messages: reads `values.txt`,
//! and prints one line for each. What it has to print stands in `stdout`, worked out by hand.

mod numbers;
mod values;

use std::alloc::{AllocError, Global};
use std::rt::Files;
use std::{fs, io};

/// Adds what a case shows.
fn push_line(alloc: Global, line: &mut String, case: &str) -> Result<(), AllocError> {
    let Some((kind, words)) = case.split_once(": ") else {
        return line.push_str(case);
    };
    match kind {
        "primitive" => numbers::push_primitive(line, words),
        "number" => numbers::push_number(alloc, line, words),
        "holds" => numbers::push_holds(line, words),
        "values" => values::push_values(alloc, line, words),
        _ => line.push_str(case),
    }
}

/// Prints what a case shows.
fn print_case<R: Print + AllocGlobal>(rt: &R, case: &str) -> io::Result<()> {
    let mut line = String::new(rt.alloc());
    push_line(rt.alloc(), &mut line, case)?;
    rt.println(line)
}

/// Prints what the section shows.
pub fn print<R: Files + Print + AllocGlobal>(rt: &R) -> io::Result<()> {
    let cases = fs::read_to_string(rt, "values.txt")?;
    for case in cases.lines() {
        print_case(rt, case)?;
    }
    Ok(())
}

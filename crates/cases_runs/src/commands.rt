//! Cases of `run` over devices in memory: what files cannot be made to do, and every way to cut an input in pieces. Reads
//! `commands.txt`, and prints how each run ended. What it has to print stands in `stdout`, worked out by hand. What the commands make
//! of their inputs is shown by the built program, in `tried/`.

mod cases;
mod devices;
mod forms;
mod texts;
mod told;

use crate::commands::cases::push_line;
use crate::commands::texts::{Text, read_texts};
use std::rt::Files;
use std::sync::Wait;
use std::{fs, io};

/// Prints what a line of the file of cases shows.
fn print_case<R: Print + AllocGlobal + Wait>(rt: &R, texts: &[Text], case: &str) -> io::Result<()> {
    let mut line = String::new(rt.alloc());
    push_line(rt, rt.alloc(), &mut line, texts, case)?;
    rt.println(line)
}

/// Prints what each line of the file of cases shows.
fn print_cases<R: Print + AllocGlobal + Wait>(
    rt: &R,
    texts: &[Text],
    cases: &str,
) -> io::Result<()> {
    for case in cases.lines() {
        print_case(rt, texts, case)?;
    }
    Ok(())
}

/// Prints what the section shows.
pub fn print<R: Files + Print + AllocGlobal + Wait>(rt: &R) -> io::Result<()> {
    let texts = read_texts(rt)?;
    let cases = fs::read_to_string(rt, "commands.txt")?;
    print_cases(rt, texts.as_slice(), cases.as_str())
}

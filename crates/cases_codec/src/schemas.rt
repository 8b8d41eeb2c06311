//! Cases of schemas, of their text and of their layout: reads `schemas.txt`, and prints what each line shows. What it has to print
//! stands in `stdout`, worked out by hand. What `check` says of texts is shown by the built program, in `tried/schemas.cases`.
//!
//! A line that begins with `#` is a heading. `text: LENGTH | LINES` is one text, in which ` ; ` is a line end, with as many blanks
//! behind it as make so many bytes. `sample: FILE` is a schema in a file of its own.

mod samples;
mod verdict;

use cases_words::number;
use samples::print_sample;
use std::alloc::{AllocError, Global};
use std::rt::Files;
use std::{fs, io};
use verdict::push_verdict;

/// The text that a case spells.
fn text_of(alloc: Global, words: &str) -> Result<String, AllocError> {
    let (length, lines) = words.split_once(" | ").unwrap_or(("", words));
    let mut text = lines.replace(alloc, " ; ", "\n")?;
    for _ in text.len() as u64..number(length) {
        text.push(' ')?;
    }
    Ok(text)
}

/// The verdict on the text of a case, and the case.
fn shown(alloc: Global, words: &str) -> Result<String, AllocError> {
    let text = text_of(alloc, words)?;
    let mut line = String::new(alloc);
    push_verdict(alloc, &mut line, text.as_bytes())?;
    write!(line, " | {words}")?;
    Ok(line)
}

/// Prints what a line shows; one that is no case as it is.
fn print_line<R: Files + Print + AllocGlobal>(rt: &R, line: &str) -> io::Result<()> {
    match line.split_once(": ") {
        Some(("sample", file)) => print_sample(rt, file),
        Some(("text", words)) => rt.println(shown(rt.alloc(), words)?),
        _ => rt.println(line),
    }
}

/// Prints what the section shows.
pub fn print<R: Files + Print + AllocGlobal>(rt: &R) -> io::Result<()> {
    let text = fs::read_to_string(rt, "schemas.txt")?;
    for line in text.lines() {
        print_line(rt, line)?;
    }
    Ok(())
}

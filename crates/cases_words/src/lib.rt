//! The words of a line of cases: numbers, bytes in hexadecimal, frames by name, and the halves at a blank; the sections that a program
//! of cases is asked for; and numbers that are drawn. The programs of cases read theirs by these calls, and print bytes by `digits`.
#![tactic(auto)]

mod chance;
mod named;

pub use chance::Chance;
pub use named::Named;
use std::alloc::{AllocError, Global};
use std::rt::Env;
use std::{env, io};

/// The number that a word spells in decimal; 0 where it spells none below 2^64.
pub fn number(word: &str) -> u64 {
    word.parse::<u64>().unwrap_or(0)
}

/// The words at both sides of the first blank; nothing on the right where there is none.
pub fn halves(text: &str) -> (&str, &str) {
    parted(text, " ")
}

/// The words at both sides of a mark; nothing on the right where it is not there.
pub fn parted<'a>(text: &'a str, mark: &str) -> (&'a str, &'a str) {
    match text.split_once(mark) {
        Some(parts) => parts,
        None => (text, ""),
    }
}

/// The bytes that a word spells in hexadecimal; none where it spells none.
///
/// # Errors
/// Want of memory.
pub fn bytes(alloc: Global, word: &str) -> Result<Vec<u8>, AllocError> {
    match hex::decode(alloc, word) {
        Ok(bytes) => Ok(bytes),
        Err(_fault) => Ok(Vec::new(alloc)),
    }
}

/// Bytes in hexadecimal.
///
/// # Errors
/// Want of memory.
pub fn digits(alloc: Global, bytes: &[u8]) -> Result<String, AllocError> {
    hex::encode(alloc, bytes)
}

/// The section that the command line names: its first word; None where it has none, for all of them.
///
/// # Errors
/// Want of memory.
pub fn asked<R: Env + AllocGlobal>(rt: &R) -> io::Result<Option<String>> {
    let mut words = env::args(rt)?;
    let _ = words.next();
    Ok(words.next())
}

/// Prints the heading of a section that is asked for; is it?
///
/// # Errors
/// The output's.
pub fn begins<R: Print + AllocGlobal>(
    rt: &R,
    asked: &Option<String>,
    section: &str,
) -> io::Result<bool> {
    if let Some(word) = asked {
        if word.as_str() != section {
            return Ok(false);
        }
    }
    println!(rt; "== {section}")?;
    Ok(true)
}

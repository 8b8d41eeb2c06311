//! What decoding makes of messages: the template, or the fault. What stands in them is printed by `decode`, in `tried/decode.cases`.
//!
//! `message: HEX` is one message, without its framing header: two lines tell what decoding says and what a view says.
//! `cuts: HEX` are all proper prefixes of a message: a line for each run of lengths of which the same is said. `repeat: COUNT |
//! HEX | HEX` is the first part, with the second so many times behind it, of which only the fault or the number of entries of
//! the first group is told.

use crate::codec::printed::{add_decoded, add_fault, add_viewed, decoded};
use cases_words::{bytes, number};
use sbe_layout::Plan;
use sbe_value::{Group, Message};
use std::alloc::{AllocError, Global};

/// The bytes of hexadecimal pairs with spaces between; none where they are not such.
fn bytes_of(alloc: Global, text: &str) -> Result<Vec<u8>, AllocError> {
    let digits = text.replace(alloc, " ", "")?;
    bytes(alloc, digits.as_str())
}

/// Adds what decoding and a view say of a message.
pub fn add_message(
    alloc: Global,
    plan: &Plan,
    digits: &str,
    lines: &mut String,
) -> Result<(), AllocError> {
    let bytes = bytes_of(alloc, digits)?;
    add_decoded(alloc, plan, bytes.as_slice(), lines)?;
    lines.push_str("\n")?;
    add_viewed(alloc, plan, bytes.as_slice(), lines)?;
    lines.push_str("\n")
}

/// What is said of the front of this length.
fn said_of_front(
    alloc: Global,
    plan: &Plan,
    bytes: &[u8],
    length: usize,
) -> Result<String, AllocError> {
    let (front, _) = bytes.split_at(length.min(bytes.len()));
    let mut said = String::new(alloc);
    add_decoded(alloc, plan, front, &mut said)?;
    Ok(said)
}

/// Ends the run of lengths that began at `first` where another is said of the length behind this one, or there is none. Gives the
/// first length of the run that goes on.
fn add_cut(
    alloc: Global,
    plan: &Plan,
    bytes: &[u8],
    first: usize,
    length: usize,
    lines: &mut String,
) -> Result<usize, AllocError> {
    let behind = length.saturating_add(1);
    let said = said_of_front(alloc, plan, bytes, length)?;
    if behind < bytes.len() && said == said_of_front(alloc, plan, bytes, behind)? {
        return Ok(first);
    }
    write!(lines, "{first} to {length}: {said}\n")?;
    Ok(behind)
}

/// Adds what is said of each proper prefix, a line for each run of lengths.
pub fn add_cuts(
    alloc: Global,
    plan: &Plan,
    digits: &str,
    lines: &mut String,
) -> Result<(), AllocError> {
    let bytes = bytes_of(alloc, digits)?;
    let mut first = 0;
    for length in 0..bytes.len() {
        first = add_cut(alloc, plan, bytes.as_slice(), first, length, lines)?;
    }
    Ok(())
}

/// The bytes of a message with a part of it so many times at its end.
fn bytes_repeated(alloc: Global, rest: &str) -> Result<Vec<u8>, AllocError> {
    let (count, rest) = rest.split_once(" | ").unwrap_or((rest, ""));
    let (front, part) = rest.split_once(" | ").unwrap_or((rest, ""));
    let mut bytes = bytes_of(alloc, front)?;
    let part = bytes_of(alloc, part)?;
    for _ in 0..number(count) {
        bytes.extend_from_slice(part.as_slice())?;
    }
    Ok(bytes)
}

/// Adds what decoding says of a message with a part so many times behind it.
pub fn add_repeated(
    alloc: Global,
    plan: &Plan,
    rest: &str,
    line: &mut String,
) -> Result<(), AllocError> {
    let bytes = bytes_repeated(alloc, rest)?;
    match decoded(alloc, plan, bytes.as_slice()) {
        Some(Ok(message)) => add_entries(&message, line),
        Some(Err(fault)) => add_fault(fault, line),
        None => line.push_str("Memory"),
    }?;
    line.push_str("\n")
}

/// Adds how many entries the first group has.
fn add_entries(message: &Message, line: &mut String) -> Result<(), AllocError> {
    let count = match message.root.groups.as_slice() {
        [Group::Entries(blocks), ..] => blocks.len(),
        _ => 0,
    };
    write!(line, "entries {count}")
}

//! What encoding makes of messages that are not of their schema's shape, so that no text spells them. What it makes of others is
//! shown by `encode`, in `tried/encode.cases`.
//!
//! `write: MESSAGE` is one message: a line tells its fault, and what stands behind the byte `aa` after it was written.

use crate::codec::messages::message_of;
use cases_words::digits;
use sbe_encode::{EncodeError, EncodeFault, encode};
use sbe_layout::Plan;
use sbe_value::{Bytes, Message, Path, text_of_path};
use std::alloc::{AllocError, Global};

/// Adds what encoding makes of a message.
pub fn add_written(
    alloc: Global,
    plan: &Plan,
    words: &str,
    line: &mut String,
) -> Result<(), AllocError> {
    let mut out = Bytes::from_slice(alloc, &[0xAA])?;
    match message_of(alloc, words) {
        Some(message) => add_verdict(alloc, plan, &message, &mut out, line)?,
        None => line.push_str("no message")?,
    }
    add_bytes(alloc, out.as_slice(), line)
}

/// Encodes a message behind `out`, and adds what comes of it.
fn add_verdict(
    alloc: Global,
    plan: &Plan,
    message: &Message,
    out: &mut Bytes,
    line: &mut String,
) -> Result<(), AllocError> {
    match encode(alloc, plan, message, out) {
        Ok(()) => line.push_str("Ok"),
        Err(EncodeError::Fault(fault)) => add_fault(alloc, &fault, line),
        Err(EncodeError::Memory) => line.push_str("Memory"),
    }
}

fn add_fault(alloc: Global, fault: &EncodeFault, line: &mut String) -> Result<(), AllocError> {
    match fault {
        EncodeFault::Shape { path } => add_path(alloc, "Shape", path, line),
        EncodeFault::Range { path } => add_path(alloc, "Range", path, line),
        EncodeFault::TooLong { length } => write!(line, "TooLong {length}"),
    }
}

fn add_path(alloc: Global, kind: &str, path: &Path, line: &mut String) -> Result<(), AllocError> {
    let text = text_of_path(alloc, path)?;
    let text = str::from_utf8(text.as_slice()).unwrap_or("not text");
    write!(line, "{kind} '{text}'")
}

/// Adds the bytes, and ends the line.
fn add_bytes(alloc: Global, bytes: &[u8], line: &mut String) -> Result<(), AllocError> {
    let digits = digits(alloc, bytes)?;
    write!(line, ": {digits}\n")
}

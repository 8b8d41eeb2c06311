//! What decoding says, the fields of a view, and a fault, as a line of text.
//!
//! A field is its number, `null`, `absent` or `bytes:HEX`.

use cases_words::digits;
use sbe_decode::{DecodeError, DecodeFault, FieldView, MessageView, decode, view};
use sbe_layout::Plan;
use sbe_value::Message;
use std::alloc::{AllocError, Global};

/// The message of some bytes, or its fault; none where memory runs out.
pub fn decoded(alloc: Global, plan: &Plan, bytes: &[u8]) -> Option<Result<Message, DecodeFault>> {
    match decode(alloc, plan, bytes) {
        Ok(message) => Some(Ok(message)),
        Err(DecodeError::Fault(fault)) => Some(Err(fault)),
        Err(DecodeError::Memory) => None,
    }
}

/// Adds what decoding says of a message: its template, or its fault.
pub fn add_decoded(
    alloc: Global,
    plan: &Plan,
    bytes: &[u8],
    line: &mut String,
) -> Result<(), AllocError> {
    match decoded(alloc, plan, bytes) {
        Some(Ok(message)) => {
            let template = message.template;
            write!(line, "message {template}")
        }
        Some(Err(fault)) => add_fault(fault, line),
        None => line.push_str("Memory"),
    }
}

/// Adds what a view says of it: its template and its fields.
pub fn add_viewed(
    alloc: Global,
    plan: &Plan,
    bytes: &[u8],
    line: &mut String,
) -> Result<(), AllocError> {
    match view(plan, bytes) {
        Ok(view) => add_fields(alloc, &view, line),
        Err(fault) => add_fault(fault, line),
    }
}

fn add_fields(alloc: Global, view: &MessageView<'_>, line: &mut String) -> Result<(), AllocError> {
    let template = view.template();
    write!(line, "{template}")?;
    for i in 0..view.field_count() {
        add_field(alloc, view.field(i), line)?;
    }
    Ok(())
}

fn add_field(alloc: Global, field: FieldView<'_>, line: &mut String) -> Result<(), AllocError> {
    match field {
        FieldView::Num(n) => write!(line, " {n}"),
        FieldView::Bytes(bytes) => add_bytes(alloc, " bytes:", bytes, line),
        FieldView::Null => line.push_str(" null"),
        FieldView::Absent => line.push_str(" absent"),
    }
}

/// Adds a fault: its name and its numbers.
pub fn add_fault(fault: DecodeFault, line: &mut String) -> Result<(), AllocError> {
    match fault {
        DecodeFault::Truncated { at } => write!(line, "Truncated {at}"),
        DecodeFault::OtherSchema { id } => write!(line, "OtherSchema {id}"),
        DecodeFault::UnknownTemplate { id } => write!(line, "UnknownTemplate {id}"),
        DecodeFault::ShortBlock { at, found, needed } => {
            write!(line, "ShortBlock {at} {found} {needed}")
        }
    }
}

/// Adds bytes behind a word.
fn add_bytes(alloc: Global, word: &str, bytes: &[u8], line: &mut String) -> Result<(), AllocError> {
    line.push_str(word)?;
    line.push_str(digits(alloc, bytes)?.as_str())
}

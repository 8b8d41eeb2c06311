//! What is wrong with a line of OUT of which no message is told.

use crate::codec::{line_at, push_fault_of_message, push_quoted_line};
use conn_told::Wrong;
use gw_lines::LONGEST;
use sbe_layout::Plan;
use sbe_prim::Order;
use std::alloc::AllocError;

/// Adds that a payload begins with no encoding type of the schema.
fn push_encoding(line: &mut String, plan: Option<&Plan>) -> Result<(), AllocError> {
    line.push_str("its payload does not begin with the encoding type of SCHEMA")?;
    match plan {
        Some(plan) => match plan.order {
            Order::Little => line.push_str(", eb50"),
            Order::Big => line.push_str(", 5be0"),
        },
        None => Ok(()),
    }
}

/// Adds the line of this number in the lines of OUT, where these are at hand, and why no message of a schema is told of it.
///
/// # Errors
/// Want of memory.
pub fn push_told_fault(
    line: &mut String,
    plan: Option<&Plan>,
    lines: Option<&[u8]>,
    number: u64,
    wrong: &Wrong,
) -> Result<(), AllocError> {
    write!(line, "line {number}: ")?;
    match wrong {
        Wrong::TooLong => write!(line, "it has more than {LONGEST} bytes"),
        Wrong::Form => push_form(line, lines, number),
        Wrong::Digits => line.push_str("its payload is not in pairs of hexadecimal digits"),
        Wrong::Encoding => push_encoding(line, plan),
        Wrong::Message(fault) => push_fault_of_message(line, plan, "SCHEMA", *fault),
    }
}

/// Adds that a line is none of OUT.
fn push_form(line: &mut String, lines: Option<&[u8]>, number: u64) -> Result<(), AllocError> {
    let found = match lines {
        Some(lines) => line_at(lines, number),
        None => None,
    };
    if let Some(found) = found {
        push_quoted_line(line, found)?;
        line.push_str(": ")?;
    }
    line.push_str("this is no line of OUT, such as deliver N HEX")
}

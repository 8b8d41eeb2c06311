//! What the text of a message is read as.
//!
//! `text: LINES` is one text, in which ` ; ` is a line feed: a line tells the text that the message, read and written again, has,
//! or the number of the line that is refused. What the built program shows of texts stands in `tried/texts.cases`; these are
//! messages that no bytes spell, so no command prints them.

use sbe_layout::Plan;
use sbe_text::{TextError, parse_message, print_message};
use std::alloc::{AllocError, Global};

/// Adds what the text of a message is read as.
pub fn add_read(
    alloc: Global,
    plan: &Plan,
    lines: &str,
    told: &mut String,
) -> Result<(), AllocError> {
    let text = lines.replace(alloc, " ; ", "\n")?;
    match parse_message(alloc, plan, text.as_bytes()) {
        Ok(message) => {
            let text = print_message(alloc, plan, &message)?;
            add_shown(alloc, text.as_slice(), told)
        }
        Err(TextError::Line(line)) => write!(told, "line {line}\n"),
        Err(TextError::Memory) => Err(AllocError),
    }
}

/// Adds the lines of a text in one line.
fn add_shown(alloc: Global, text: &[u8], told: &mut String) -> Result<(), AllocError> {
    let lines = str::from_utf8(text).unwrap_or("?");
    let shown = lines.replace(alloc, "\n", " ; ")?;
    told.push_str(shown.trim_end())?;
    told.push_str("\n")
}

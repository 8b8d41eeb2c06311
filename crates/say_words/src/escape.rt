//! Text from outside, as it may be shown on a terminal.

use sbe_value::{Path, Step};
use std::alloc::{AllocError, Global};

/// The most characters that are shown of a text.
const SHOWN: usize = 80;

/// Whether a character moves the cursor, is not seen, or turns the direction of what follows.
fn is_hidden(c: char) -> bool {
    matches!(
        c,
        '\u{0}'..='\u{1f}'
            | '\u{7f}'..='\u{9f}'
            | '\u{ad}'
            | '\u{61c}'
            | '\u{180e}'
            | '\u{200b}'..='\u{200f}'
            | '\u{2028}'..='\u{202e}'
            | '\u{2060}'..='\u{206f}'
            | '\u{feff}'
            | '\u{fff9}'..='\u{fffb}'
            | '\u{e0000}'..='\u{e007f}'
    )
}

/// Adds a character.
fn push_char(line: &mut String, c: char) -> Result<(), AllocError> {
    match c {
        '\n' => line.push_str("\\n"),
        '\r' => line.push_str("\\r"),
        '\t' => line.push_str("\\t"),
        '"' => line.push_str("\\\""),
        '\\' => line.push_str("\\\\"),
        c if is_hidden(c) => {
            let code = c as u32;
            write!(line, "\\u{{{code:x}}}")
        }
        c => line.push(c),
    }
}

/// Adds a text in quotes, cut short where it is long.
pub fn push_quoted(line: &mut String, text: &str) -> Result<(), AllocError> {
    line.push_str("\"")?;
    for (at, c) in text.chars().enumerate() {
        if at == SHOWN {
            line.push_str("..")?;
            break;
        }
        push_char(line, c)?;
    }
    line.push_str("\"")
}

/// Whether a text can stand without quotes.
fn is_bare(text: &str) -> bool {
    !text.is_empty()
        && text.bytes().all(|byte| byte.is_ascii_alphanumeric()
            || matches!(byte, b'_' | b'-' | b'.' | b'/'))
}

/// Adds a key: in quotes where it has a dot, a bracket or anything that is not seen.
fn push_key(line: &mut String, key: &[u8]) -> Result<(), AllocError> {
    match std::str::from_utf8(key) {
        Ok(key) if is_bare(key) && !key.contains('.') && !key.contains('/') => line.push_str(key),
        Ok(key) => push_quoted(line, key),
        Err(_) => line.push_str("?"),
    }
}

/// Adds a step of a path: a dot and a key, the first of them without a dot, or `[N]`.
fn push_step(line: &mut String, is_first: bool, step: &Step) -> Result<(), AllocError> {
    match step {
        Step::Key(key) => {
            line.push_str(if is_first { "" } else { "." })?;
            push_key(line, key.as_slice())
        }
        Step::At(place) => write!(line, "[{place}]"),
    }
}

/// Adds a path: its keys joined by dots, and `[N]` for a place in a list.
pub fn push_path(line: &mut String, path: &Path) -> Result<(), AllocError> {
    for (at, step) in path.as_slice().iter().enumerate() {
        push_step(line, at == 0, step)?;
    }
    Ok(())
}

/// Adds words, one behind the other.
pub fn push_all(line: &mut String, words: &[&str]) -> Result<(), AllocError> {
    for word in words {
        line.push_str(word)?;
    }
    Ok(())
}

/// Adds a file of the command line: what it is to the command, and its path.
pub fn push_file(line: &mut String, role: &str, path: &str) -> Result<(), AllocError> {
    if is_bare(path) {
        return push_all(line, &[role, " ", path]);
    }
    push_all(line, &[role, " "])?;
    push_quoted(line, path)
}

/// A text in quotes.
pub fn quoted(alloc: Global, text: &str) -> Result<String, AllocError> {
    let mut line = String::new(alloc);
    push_quoted(&mut line, text)?;
    Ok(line)
}

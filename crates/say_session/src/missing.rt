//! A journal that is missing, or was, and the other one that is there.

use gw_real::Named;
use say_words::{push_all, push_file};
use std::alloc::AllocError;
use std::io::ErrorKind;
use std::rt::Files;

/// The size of a journal without records, in bytes.
const EMPTY: u64 = 17;

/// Whether there is no file at a path.
fn is_missing<R: Files>(rt: &R, path: &str) -> bool {
    matches!(rt.metadata(path), Err(error) if error.kind() == ErrorKind::NotFound)
}

/// Whether there is a file at a path that is longer than a journal without records.
fn has_records<R: Files>(rt: &R, path: &str) -> bool {
    matches!(rt.metadata(path), Ok(metadata) if metadata.len() > EMPTY)
}

/// Adds what to do where a journal is missing: both have to be made for a new session, and where the other one has records
/// this is none.
pub fn push_missing<R: Files>(
    rt: &R,
    line: &mut String,
    name: Named<'_>,
    other: Named<'_>,
) -> Result<(), AllocError> {
    if name.is_standard() || !is_missing(rt, name.path) {
        return Ok(());
    }
    if !has_records(rt, other.path) {
        return line.push_str(": for a new session run fixpgw format OUTBOX INBOX");
    }
    let role = name.role;
    write!(line, ": only {role} is missing: ")?;
    push_file(line, other.role, other.path)?;
    line.push_str(" is there and has records, so this is no new session")
}

/// Adds behind a file that `format` refused, since it is a journal already, that only the other one is missing, or was and is made
/// now.
pub fn push_other<R: Files>(
    rt: &R,
    line: &mut String,
    refused: Named<'_>,
    other: Named<'_>,
    is_made: bool,
) -> Result<(), AllocError> {
    if !is_made && !is_missing(rt, other.path) {
        return Ok(());
    }
    line.push_str("; only ")?;
    push_file(line, other.role, other.path)?;
    let other_is = if is_made {
        " was missing, and is made now; "
    } else {
        " is missing; "
    };
    let refused_has = if has_records(rt, refused.path) {
        " has records, so this is no new session"
    } else {
        " has no records, and may be removed for a new session"
    };
    push_all(line, &[other_is, refused.role, refused_has])
}

/// Adds behind a file that `format` could not make that the other one was made before, where there was none.
pub fn push_made(line: &mut String, other: Named<'_>, is_made: bool) -> Result<(), AllocError> {
    if !is_made {
        return Ok(());
    }
    line.push_str("; ")?;
    push_file(line, other.role, other.path)?;
    line.push_str(" was missing, and is made now")
}

//! The lines of a file of cases: `extends NEW OLD`, `project SCHEMA VERSION`, `restrict NEW OLD HEX` and `changed SCHEMA
//! TEXT => OTHER ; ..`, where the files hold schemas and the digits are one message without its framing header. A changed
//! schema has each text in place of the one before its arrow, where `none` is no text, and is compared with the schema as
//! it was, both ways. A line that begins with `#` is a heading.

use cases_words::{bytes, halves, number};
use layout_text::message_lines;
use sbe_decode::{DecodeError, decode};
use sbe_layout::lay_out;
use sbe_schema::Checked;
use sbe_skew::{SkewFault, extends, project, restrict};
use sbe_value::{Message, Path, text_of_path};
use schema_load::load_checked;
use std::alloc::{AllocError, Global};
use std::rt::Files;
use std::{fs, io};

/// The version of a word; the greatest where it spells none.
fn version_of(word: &str) -> u16 {
    match u16::try_from(number(word)) {
        Ok(version) => version,
        Err(_) => u16::MAX,
    }
}

/// The schema of a file; none where it has none.
fn schema_of<R: Files + AllocGlobal>(rt: &R, file: &str) -> io::Result<Option<Checked>> {
    let text = fs::read(rt, file)?;
    Ok(load_checked(rt.alloc(), text.as_slice()).ok())
}

fn path_text(alloc: Global, path: &Path) -> Result<String, AllocError> {
    let text = text_of_path(alloc, path)?;
    match str::from_utf8(text.as_slice()) {
        Ok(text) => format!(in alloc; "differs at '{text}'"),
        Err(_) => format!(in alloc; "not text"),
    }
}

/// Whether the one schema extends the other, and where they differ first.
fn extended(alloc: Global, new: &Checked, old: &Checked) -> Result<String, AllocError> {
    match extends(alloc, new, old) {
        Ok(()) => format!(in alloc; "extends it"),
        Err(SkewFault::Differs { path }) => path_text(alloc, &path),
        Err(SkewFault::Memory) => format!(in alloc; "Memory"),
    }
}

/// The layout of the first message of an older version.
fn projected(alloc: Global, schema: &Checked, version: u16) -> Result<String, AllocError> {
    let older = project(alloc, schema, version)?;
    let plan = lay_out(alloc, &older)?;
    let Some(message) = plan.messages.as_slice().first() else {
        return format!(in alloc; "no message");
    };
    let lines = message_lines(alloc, message)?;
    match str::from_utf8(lines.as_slice()) {
        Ok(lines) => format!(in alloc;
            "{} of {}\n{}",
            older.schema.version,
            plan.id,
            lines.trim_end()
        ),
        Err(_) => format!(in alloc; "not text"),
    }
}

/// The message of some bytes; none where they spell none.
fn message_of(
    alloc: Global,
    schema: &Checked,
    bytes: &[u8],
) -> Result<Option<Message>, AllocError> {
    let plan = lay_out(alloc, schema)?;
    match decode(alloc, &plan, bytes) {
        Ok(message) => Ok(Some(message)),
        Err(DecodeError::Fault(_) | DecodeError::Memory) => Ok(None),
    }
}

/// Whether the newer message, restricted to the older version, is what the older schema reads.
fn restricted(
    alloc: Global,
    new: &Checked,
    old: &Checked,
    bytes: &[u8],
) -> Result<&'static str, AllocError> {
    let plan = lay_out(alloc, new)?;
    let Some(newer) = message_of(alloc, new, bytes)? else {
        return Ok("the newer reads nothing");
    };
    let Some(older) = message_of(alloc, old, bytes)? else {
        return Ok("the older reads nothing");
    };
    let kept = restrict(alloc, &plan, &newer, old.schema.version)?;
    if kept == older {
        Ok("the older reads the same")
    } else {
        Ok("the older reads another message")
    }
}

/// What is said of two schemas.
fn said_of_two<R: Files + AllocGlobal>(rt: &R, kind: &str, rest: &str) -> io::Result<String> {
    let alloc = rt.alloc();
    let (first, behind) = halves(rest);
    let (second, digits) = halves(behind);
    let (Some(new), Some(old)) = (schema_of(rt, first)?, schema_of(rt, second)?) else {
        return Ok(format!(in alloc; "no schema")?);
    };
    if kind == "extends" {
        return Ok(extended(alloc, &new, &old)?);
    }
    let bytes = bytes(alloc, digits)?;
    let told = restricted(alloc, &new, &old, bytes.as_slice())?;
    Ok(format!(in alloc; "{told}")?)
}

fn said_of_one<R: Files + AllocGlobal>(rt: &R, rest: &str) -> io::Result<String> {
    let alloc = rt.alloc();
    let (file, version) = halves(rest);
    match schema_of(rt, file)? {
        Some(schema) => Ok(projected(alloc, &schema, version_of(version))?),
        None => Ok(format!(in alloc; "no schema")?),
    }
}

/// A text with each change of a list made.
fn text_changed(alloc: Global, text: &str, changes: &str) -> Result<String, AllocError> {
    let mut text = text.to_string(alloc)?;
    for change in changes.split(" ; ") {
        if let Some((old, new)) = change.split_once(" => ") {
            let new = if new == "none" { "" } else { new };
            text = text.replace(alloc, old, new)?;
        }
    }
    Ok(text)
}

/// What is said of two schemas, each compared as the newer one with the other.
fn both_ways(alloc: Global, first: &str, second: &str) -> Result<String, AllocError> {
    let Ok(first) = load_checked(alloc, first.as_bytes()) else {
        return format!(in alloc; "no schema");
    };
    let Ok(second) = load_checked(alloc, second.as_bytes()) else {
        return format!(in alloc; "no schema");
    };
    let newer = extended(alloc, &second, &first)?;
    let older = extended(alloc, &first, &second)?;
    format!(in alloc; "as the newer {newer}, as the older {older}")
}

/// What is said of a schema and the same with some changes.
fn said_of_changed<R: Files + AllocGlobal>(rt: &R, rest: &str) -> io::Result<String> {
    let alloc = rt.alloc();
    let (file, changes) = halves(rest);
    let text = fs::read_to_string(rt, file)?;
    let changed = text_changed(alloc, text.as_str(), changes)?;
    Ok(both_ways(alloc, text.as_str(), changed.as_str())?)
}

/// Prints a line of the file and what is said of it.
pub fn print_case<R: Files + Print + AllocGlobal>(rt: &R, line: &str) -> io::Result<()> {
    let (kind, rest) = halves(line);
    let told = match kind {
        "#" => return rt.println(line),
        "project" => said_of_one(rt, rest)?,
        "changed" => said_of_changed(rt, rest)?,
        _ => said_of_two(rt, kind, rest)?,
    };
    println!(rt; "{line}: {told}")
}

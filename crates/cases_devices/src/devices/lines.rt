//! The lines of a source in memory: cuts, long lines and failing calls.

ghost use Rattle.std.specs.Prelude.{◌≡◌, [], OnOk};

use crate::devices::failing::failing;
use cases_words::{bytes, digits, halves, number};
use gw_fakes::MemSource;
use gw_lines::{Found, LineReader};
use gw_outside::{Bytes, Source};
use std::alloc::{AllocError, Global};

/// The bytes of some words, each so many times as stands before its star: `COUNT*HEX` or `HEX`.
fn content(alloc: Global, words: &str) -> Result<Bytes, AllocError> {
    let mut all = Vec::new(alloc);
    for word in words.split(' ') {
        let (count, word) = word.split_once('*').unwrap_or(("1", word));
        let part = bytes(alloc, word)?;
        for _ in 0..number(count) {
            all.extend_from_slice(part.as_slice())?;
        }
    }
    Ok(Bytes::from(all))
}

/// Adds the number of a line, and what it says, or how many bytes it has.
fn add_line(
    alloc: Global,
    reader: &LineReader,
    found: Found,
    line: &mut String,
) -> Result<(), AllocError> {
    let number = reader.number();
    match found {
        Found::TooLong => write!(line, " {number} too long"),
        Found::Whole if reader.line().len() > 20 => {
            let size = reader.line().len();
            write!(line, " {number} of {size} bytes")
        }
        Found::Whole => {
            let said = digits(alloc, reader.line())?;
            write!(line, " {number} {said};")
        }
    }
}

/// Adds the lines that what was read has to their line feeds.
fn add_found(alloc: Global, reader: &mut LineReader, line: &mut String) -> Result<(), AllocError>
    ensures { OnOk result (reader.new.waiting ≡ []) }
{
    while let Some(found) = reader.next() {
        add_line(alloc, reader, found, line)?;
    }
    Ok(())
}

/// Adds what stands behind the last line feed.
fn add_last(alloc: Global, reader: &mut LineReader, line: &mut String) -> Result<(), AllocError>
    requires { reader.old.waiting ≡ [] }
{
    match reader.last() {
        Some(found) => {
            line.push_str(" last")?;
            add_line(alloc, reader, found, line)
        }
        None => line.push_str(" end"),
    }
}

/// Adds all lines of a source.
fn add_all<S: Source>(alloc: Global, source: &mut S, line: &mut String) -> Result<(), AllocError> {
    let mut reader = LineReader::new(alloc)?;
    for _pull in 0..100_000 {
        match reader.read(source) {
            Ok(0) => return add_last(alloc, &mut reader, line),
            Ok(_) => add_found(alloc, &mut reader, line)?,
            Err(_) => line.push_str(" failed")?,
        }
    }
    Ok(())
}

/// The lines of a source: `PIECE FAIL CONTENT`.
pub fn add_lines(alloc: Global, rest: &str, line: &mut String) -> Result<(), AllocError> {
    let (piece, others) = halves(rest);
    let (fail, words) = halves(others);
    line.push_str("lines")?;
    let content = content(alloc, words)?;
    let piece = (number(piece) as usize).max(1);
    let mut source = MemSource::new(content, piece, failing(alloc, fail)?);
    add_all(alloc, &mut source, line)
}

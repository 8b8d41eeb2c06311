//! A file that is kept and appended to: it is gone on with, cut and opened again; a device keeps nothing.

use cases_words::digits;
use gw_appended::Appended;
use gw_appended_files::AppendedFile;
use gw_outside::{Failed, Sink};
use gw_real::Named;
use std::alloc::{AllocError, Global};
use std::fs::{File, Files};

/// What a sink that appends holds, and its first bytes, through the trait.
fn held<A: Appended>(out: &mut A, into: &mut [u8]) -> Result<(Option<u64>, usize), Failed> {
    let size = out.length()?;
    let count = out.read_at(0, into)?;
    Ok((size, count))
}

/// A line cut off behind so many bytes, and another behind it, through the trait.
fn cut_and_push<A: Appended>(out: &mut A, size: u64, line: &[u8]) -> Result<usize, Failed> {
    if let Some(length) = out.length()? {
        if size <= length {
            out.cut(size)?;
        }
    }
    out.push(line)
}

/// The file of a name.
fn file<'a, R>(rt: &'a R, path: &'a str) -> AppendedFile<'a, R, Vec<u8>> {
    let name = Named { role: "OUT", path };
    AppendedFile::new(rt, name, &[])
}

/// Adds what a file holds, and its first bytes.
fn add_held<R: Files<File = File>>(
    alloc: Global,
    out: &mut AppendedFile<'_, R, Vec<u8>>,
    line: &mut String,
) -> Result<(), AllocError> {
    let mut piece = [0; 8];
    let answer = held(out, &mut piece);
    let front = digits(alloc, &piece)?;
    write!(line, "{answer:?} {front}")
}

/// A file that takes a line and the front of another, is cut behind the first, and takes one more; and the same file opened again.
pub fn add_appended<R: Files<File = File> + AllocGlobal>(
    rt: &R,
    path: &str,
    line: &mut String,
) -> Result<(), AllocError> {
    let mut out = file(rt, path);
    let pushed = cut_and_push(&mut out, 0, b"ab\ncd");
    write!(line, "append {path}: {pushed:?}, ")?;
    add_held(rt.alloc(), &mut out, line)?;
    let next = cut_and_push(&mut out, 3, b"ef\n");
    write!(line, ", {next:?}, again ")?;
    let mut again = file(rt, path);
    add_held(rt.alloc(), &mut again, line)
}

//! The lines on OUT, as they are looked at again.

use text_words::{number, number_before};

/// How a connection ended, by the line of its end.
#[derive(Clone, Copy)]
pub(crate) enum EndWords {
    Finished,
    Terminated(u64),
    LinkEnded,
    LinkFault,
    Rejected,
    Violation(u64),
}

/// A line on OUT.
#[derive(Clone, Copy)]
pub(crate) enum OutLine {
    Delivered,
    Ended(EndWords),
    Other,
}

/// What stands behind a word at the front of a line.
fn behind<'a>(line: &'a [u8], word: &[u8]) -> Option<&'a [u8]> {
    if !line.starts_with(word) {
        return None;
    }
    let (_, rest) = line.split_at(word.len().min(line.len()));
    Some(rest)
}

/// How a connection ended, by the words of its line.
fn end_of(words: &[u8]) -> Option<EndWords> {
    match words {
        b"finished" => return Some(EndWords::Finished),
        b"link-ended" => return Some(EndWords::LinkEnded),
        b"link-fault" => return Some(EndWords::LinkFault),
        _ => {}
    }
    if let Some(code) = behind(words, b"terminated ") {
        return Some(EndWords::Terminated(number(code)?));
    }
    if let Some(rule) = behind(words, b"violation ") {
        return Some(EndWords::Violation(number(rule)?));
    }
    behind(words, b"rejected ")?;
    Some(EndWords::Rejected)
}

/// The line that begins so.
pub(crate) fn line_of(line: &[u8]) -> OutLine {
    if line.starts_with(b"deliver ") {
        return OutLine::Delivered;
    }
    let Some(rest) = behind(line, b"connection ") else {
        return OutLine::Other;
    };
    let Some((_, words)) = number_before(rest, b' ') else {
        return OutLine::Other;
    };
    match end_of(words) {
        Some(end) => OutLine::Ended(end),
        None => OutLine::Other,
    }
}

//! The lines of the file of cases, and what each run is to give.

use crate::commands::devices::{Case, Numbers, ended};
use crate::commands::forms::form_of;
use crate::commands::texts::Text;
use crate::commands::told::{Whole, is_whole, push_told};
use cases_words::{halves, number};
use std::alloc::{AllocError, Global};
use std::sync::Wait;

/// The numbers of a line: `PIECE CONFIG INPUT WIRE OUT ROOM`.
fn numbers_of(words: &str) -> Numbers {
    let (piece, rest) = halves(words);
    let (config, rest) = halves(rest);
    let (input, rest) = halves(rest);
    let (wire, rest) = halves(rest);
    let (out, room) = halves(rest);
    Numbers {
        piece: number(piece) as usize,
        config: number(config),
        input: number(input),
        wire: number(wire),
        out: number(out),
        room: number(room) as usize,
    }
}

/// A run of a command over its files: `PIECE CONFIG INPUT WIRE OUT ROOM`.
fn push_run<R: Wait>(
    rt: &R,
    alloc: Global,
    line: &mut String,
    texts: &[Text],
    name: &str,
    words: &str,
) -> Result<(), AllocError> {
    write!(line, "{name} {words}: ")?;
    let form = form_of(name);
    let outcome = ended(rt, alloc, form.case(texts), numbers_of(words))?;
    push_told(line, &outcome, form.whole(texts))
}

/// Whether a case with its INPUT in pieces of this size gives the whole.
fn gives_whole<R: Wait>(
    rt: &R,
    alloc: Global,
    case: Case<'_>,
    whole: Whole<'_>,
    piece: usize,
) -> Result<bool, AllocError> {
    let outcome = ended(rt, alloc, case, Numbers::in_pieces(piece))?;
    Ok(is_whole(&outcome, whole))
}

/// How many of the runs of a case with its INPUT in pieces of 1 to `most` bytes give the whole.
fn whole_runs<R: Wait>(
    rt: &R,
    alloc: Global,
    case: Case<'_>,
    whole: Whole<'_>,
    most: usize,
) -> Result<u64, AllocError> {
    let mut count = 0u64;
    for piece in 1..=most {
        if gives_whole(rt, alloc, case, whole, piece)? {
            count = count.saturating_add(1);
        }
    }
    Ok(count)
}

/// The runs of a command with its INPUT in pieces of each size: `COMMAND MOST`.
fn push_pieces<R: Wait>(
    rt: &R,
    alloc: Global,
    line: &mut String,
    texts: &[Text],
    words: &str,
) -> Result<(), AllocError> {
    let (name, most) = halves(words);
    let form = form_of(name);
    let (case, whole) = (form.case(texts), form.whole(texts));
    let count = whole_runs(rt, alloc, case, whole, number(most) as usize)?;
    write!(line, "pieces of 1 to {most}: {count} give the whole")
}

/// Adds what a line of the file of cases shows.
pub fn push_line<R: Wait>(
    rt: &R,
    alloc: Global,
    line: &mut String,
    texts: &[Text],
    case: &str,
) -> Result<(), AllocError> {
    let Some((kind, words)) = case.split_once(": ") else {
        return line.push_str(case);
    };
    match kind {
        "pieces" => push_pieces(rt, alloc, line, texts, words),
        "answer" | "check" | "decode" | "cut" | "encode" => {
            push_run(rt, alloc, line, texts, kind, words)
        }
        _ => line.push_str(case),
    }
}

//! What the commands that stand in pipes share: `-` for an input, and how they end.

use cmd_files::print_status;
use cmd_run::Status;
use gw_real::{Named, Reason};
use session_files::push_place;
use std::alloc::AllocError;
use std::io::{self, ErrorKind};
use std::process::ExitCode;

/// How a run ended.
#[derive(Drop)]
pub(crate) struct Ended {
    /// The number that the program exits with.
    pub code: u8,
    /// The word that the status line gives.
    pub name: &'static str,
    /// What is wrong, where there was memory to say it.
    pub line: Option<String>,
    /// Whether whoever was to read OUT closed it.
    pub is_closed: bool,
}

/// The file that a word names.
pub(crate) fn named<'a>(role: &'static str, word: &'a String) -> Named<'a> {
    Named {
        role,
        path: word.as_str(),
    }
}

/// The path of an input; `-` is standard input.
pub(crate) fn input_path<'a>(input: Named<'a>) -> &'a str {
    input.read_path()
}

/// Adds why an input could not be read.
pub(crate) fn push_unread(
    line: &mut String,
    name: Named<'_>,
    reason: Option<io::Error>,
) -> Result<(), AllocError> {
    let Some(reason) = reason else {
        return Ok(());
    };
    push_place(line, name)?;
    write!(line, "{reason}")
}

/// The line that was said, if it was.
pub(crate) fn said(line: String, outcome: Result<(), AllocError>) -> Option<String> {
    match outcome {
        Ok(()) if !line.is_empty() => Some(line),
        _ => None,
    }
}

/// Whether a sink failed since whoever was to read it is gone.
pub(crate) fn is_closed(reason: Option<Reason<'_>>) -> bool {
    match reason {
        Some(Reason::System(error)) => error.kind() == ErrorKind::BrokenPipe,
        _ => false,
    }
}

/// Prints what is wrong.
fn print_line<R: Eprint>(rt: &R, ended: &Ended) {
    let name = ended.name;
    let _ = match &ended.line {
        Some(line) => eprintln!(rt; "fixpgw: {line}"),
        None => eprintln!(rt; "fixpgw: {name}"),
    };
}

/// Prints the status of a run, on standard error where OUT is standard output, and what is wrong on standard error. A pipe that was closed ends it
/// quietly.
pub(crate) fn finish_piped<R: Print + Eprint>(rt: &R, out: Named<'_>, ended: &Ended) -> ExitCode {
    if ended.is_closed {
        return ExitCode::from(0);
    }
    let (code, name) = (ended.code, ended.name);
    if let Err(error) = print_status(rt, out.is_standard(), code, name) {
        let _ = eprintln!(rt; "fixpgw: standard output: {error}");
        return ExitCode::from(Status::OutputFault.code());
    }
    if code != 0 {
        print_line(rt, ended);
    }
    ExitCode::from(code)
}

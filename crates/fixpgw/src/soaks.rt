//! A soak over the file that its words name.

ghost use Rattle.std.specs.Prelude.{◌≤◌, IfSome};

use crate::progress::Progress;
use crate::rehearsals::{RehearsalReport, print_report};
use cmd_rehearse::{Outcome, SOAK, run_soak};
use gw_outside::Sink;
use gw_real::{FileSink, Named, STANDARD_OUTPUT};
use gw_rehearse::Watch;
use say_session::push_unwritten;
use session_files::out_of;
use std::alloc::{AllocError, Global};
use std::fs::File;
use std::io::Printer;
use std::process::ExitCode;
use std::rt::Files;
use std::sync::Wait;
use std::thread::Threads;
use std::time::Clock;
use text_words::number;

/// What the words of a soak name: how many messages, and where its lines go.
#[derive(Clone, Copy)]
pub struct SoakFile<'a> {
    messages: u32,
    out: Named<'a>,
    ghost least: { 4 ≤ messages },
    ghost most: { messages ≤ 100000 },
}

/// So many messages, where a soak may have so many.
fn messages_of(word: &str) -> Option<u32>
    ensures least { IfSome result (λ n. 4 ≤ n) }
    ensures most { IfSome result (λ n. n ≤ 100000) }
{
    let messages = number(word.as_bytes())?;
    if messages < SOAK.least || SOAK.greatest < messages {
        return None;
    }
    Some(messages as u32)
}

impl<'a> SoakFile<'a> {
    /// The file of words that are a soak's.
    pub fn of(words: &'a [String]) -> Option<SoakFile<'a>> {
        let [command, count, out] = words else {
            return None;
        };
        if command.as_str() != "soak" {
            return None;
        }
        Some(SoakFile {
            messages: messages_of(count.as_str())?,
            out: Named {
                role: "OUT",
                path: out.as_str(),
            },
        })
    }
}

/// Adds what is wrong; nothing where the outcome says all.
fn push_line<R: Files<File = File>>(
    line: &mut String,
    outcome: &Outcome,
    out: &FileSink<'_, R, File, Printer<'_, R>>,
) -> Result<(), AllocError> {
    match outcome {
        Outcome::OutputFault => push_unwritten(line, out.name(), out.reason()),
        _ => Ok(()),
    }
}

/// Runs a soak over a device of any kind.
fn run_over<W: Watch, R: Threads + Wait + Sync, K: Sink>(
    rt: &R,
    alloc: Global,
    messages: u32,
    out: &mut K,
    watch: &mut W,
) -> Outcome
    requires least { 4 ≤ messages }
    requires most { messages ≤ 100000 }
{
    run_soak(rt, alloc, messages, out, watch)
}

/// Runs a soak. The file is closed when it returns, before anything is printed on standard output.
fn report_of<R: Threads + Wait + Sync + Clock + Files<File = File> + Print + Eprint + AllocGlobal>(
    rt: &R,
    file: SoakFile<'_>,
    shows_progress: bool,
) -> RehearsalReport {
    let others = [file.out, STANDARD_OUTPUT];
    let mut out = out_of(rt, file.out, &others);
    let mut progress = Progress::new(rt, shows_progress);
    let outcome = run_over(rt, rt.alloc(), file.messages, &mut out, &mut progress);
    let mut line = String::new(rt.alloc());
    let line = match push_line(&mut line, &outcome, &out) {
        Ok(()) if !line.is_empty() => Some(line),
        _ => None,
    };
    RehearsalReport { outcome, line }
}

/// Runs a soak over this file, and prints its status on standard output, and what is wrong on standard error; and there meanwhile how far it is, where
/// that is to be shown.
pub fn soak_over_file<
    R: Threads + Wait + Sync + Clock + Files<File = File> + Print + Eprint + AllocGlobal,
>(rt: &R, file: SoakFile<'_>, shows_progress: bool) -> ExitCode {
    let report = report_of(rt, file, shows_progress);
    print_report(rt, &report)
}

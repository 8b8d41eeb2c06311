//! A rehearsal over the files that its words name.

use crate::progress::Progress;
use cmd_rehearse::{Outcome, RehearseDevices, run_rehearsal};
use gw_outside::{Sink, Source};
use gw_real::{FileSink, FileSource, Named, STANDARD_OUTPUT};
use gw_rehearse::Watch;
use say_config::{Wanted, push_config_fault};
use say_session::push_unwritten;
use schema_toml::TEXT_LIMIT;
use session_files::{out_of, push_place};
use std::alloc::{AllocError, Global};
use std::fs::File;
use std::io::{self, Printer};
use std::process::ExitCode;
use std::rt::Files;
use std::sync::Wait;
use std::thread::Threads;
use std::time::Clock;

/// The devices of a rehearsal over files.
type Devices<'a, R> = RehearseDevices<
    FileSource<'a, R, File>,
    FileSink<'a, R, File, Printer<'a, R>>,
>;

/// What the words of a rehearsal name.
#[derive(Clone, Copy)]
pub struct RehearsalFiles<'a> {
    config: Named<'a>,
    out: Named<'a>,
}

/// How a rehearsal ended, and what is wrong, where there was memory to say it.
#[derive(Drop)]
pub struct RehearsalReport {
    pub outcome: Outcome,
    pub line: Option<String>,
}

impl<'a> RehearsalFiles<'a> {
    /// The files of words that are a rehearsal's.
    pub fn of(words: &'a [String]) -> Option<RehearsalFiles<'a>> {
        match words {
            [command, config, out] if command.as_str() == "rehearse" => Some(RehearsalFiles {
                config: Named {
                    role: "CONFIG",
                    path: config.as_str(),
                },
                out: Named {
                    role: "OUT",
                    path: out.as_str(),
                },
            }),
            _ => None,
        }
    }

    /// The files that OUT must not be the same as.
    fn others(&self) -> [Named<'a>; 3] {
        [self.config.read_from(), self.out, STANDARD_OUTPUT]
    }

    /// Adds what is wrong; nothing where the outcome says all.
    fn push_line<R: Files<File = File>>(
        &self,
        alloc: Global,
        line: &mut String,
        outcome: &Outcome,
        devices: &Devices<'_, R>,
    ) -> Result<(), AllocError> {
        match outcome {
            Outcome::Config(fault) => {
                push_place(line, self.config)?;
                let text = devices.config.kept().bytes();
                push_config_fault(alloc, line, Wanted::Script, fault, text)
            }
            Outcome::InputFault => self.push_unread(line, devices.config.reason()),
            Outcome::OutputFault => push_unwritten(line, devices.out.name(), devices.out.reason()),
            Outcome::Undrained { .. } => {
                push_place(line, self.config)?;
                write!(line, "{outcome}")
            }
            Outcome::Done | Outcome::Memory => Ok(()),
        }
    }

    /// Adds why CONFIG could not be read.
    fn push_unread(&self, line: &mut String, reason: Option<io::Error>) -> Result<(), AllocError> {
        let Some(reason) = reason else {
            return Ok(());
        };
        push_place(line, self.config)?;
        write!(line, "{reason}")
    }
}

/// What is wrong, in a line; none where the outcome says all, or where there is no memory to say it.
fn line_of<R: Files<File = File>>(
    alloc: Global,
    files: RehearsalFiles<'_>,
    outcome: &Outcome,
    devices: &Devices<'_, R>,
) -> Option<String> {
    let mut line = String::new(alloc);
    match files.push_line(alloc, &mut line, outcome, devices) {
        Ok(()) if !line.is_empty() => Some(line),
        _ => None,
    }
}

/// Runs a rehearsal over devices of any kind.
fn run_over<W: Watch, R: Threads + Wait + Sync, S: Source, K: Sink>(
    rt: &R,
    alloc: Global,
    devices: &mut RehearseDevices<S, K>,
    watch: &mut W,
) -> Outcome {
    run_rehearsal(rt, alloc, devices, watch)
}

/// Runs a rehearsal. The files are closed when it returns, before anything is printed on standard output: where that is closed, a
/// file may stand in its place.
fn report_of<R: Threads + Wait + Sync + Clock + Files<File = File> + Print + Eprint + AllocGlobal>(
    rt: &R,
    files: RehearsalFiles<'_>,
    shows_progress: bool,
) -> RehearsalReport {
    let others = files.others();
    let mut devices = RehearseDevices {
        config: FileSource::new(rt, rt.alloc(), files.config.read_path(), TEXT_LIMIT + 1),
        out: out_of(rt, files.out, &others),
    };
    let mut progress = Progress::new(rt, shows_progress);
    let outcome = run_over(rt, rt.alloc(), &mut devices, &mut progress);
    let line = line_of(rt.alloc(), files, &outcome, &devices);
    let RehearseDevices { config: _, out: _ } = devices;
    RehearsalReport { outcome, line }
}

/// Prints what is wrong.
fn print_line<R: Eprint>(rt: &R, report: &RehearsalReport) {
    let outcome = &report.outcome;
    let _ = match &report.line {
        Some(line) => eprintln!(rt; "fixpgw: {line}"),
        None => eprintln!(rt; "fixpgw: {outcome}"),
    };
}

/// Prints the status of a rehearsal on standard output, and what is wrong on standard error.
pub fn print_report<R: Print + Eprint>(rt: &R, report: &RehearsalReport) -> ExitCode {
    let code = report.outcome.code();
    let name = report.outcome.name();
    match println!(rt; "status {code} {name}") {
        Ok(()) => {
            if code != 0 {
                print_line(rt, report);
            }
            ExitCode::from(code)
        }
        Err(error) => {
            let _ = eprintln!(rt; "fixpgw: standard output: {error}");
            ExitCode::from(Outcome::OutputFault.code())
        }
    }
}

/// Runs a rehearsal over these files, and prints its status on standard output, and what is wrong on standard error; and there meanwhile how far it
/// is, where that is to be shown.
pub fn rehearse_over_files<
    R: Threads + Wait + Sync + Clock + Files<File = File> + Print + Eprint + AllocGlobal,
>(rt: &R, files: RehearsalFiles<'_>, shows_progress: bool) -> ExitCode {
    let report = report_of(rt, files, shows_progress);
    print_report(rt, &report)
}

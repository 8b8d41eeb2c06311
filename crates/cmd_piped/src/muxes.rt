//! A recorded client of several sessions, answered over the files that its words name.

use cmd_muxanswer::{MuxDevices, Outcome, Unrouted, run_muxanswer};
use fixp_mux::{Saying, read_saying};
use gw_outside::{Sink, Source};
use gw_real::{FileSink, FileSource, Named, Reason, STANDARD_OUTPUT};
use say_config::{Wanted, push_config_fault};
use say_faults::push_malformed;
use say_session::{push_sink, push_source};
use schema_toml::TEXT_LIMIT;
use session_files::{TWO_INPUTS, are_both_standard, out_of, push_place};
use sofh_frame::{FirstFrame, ROOM, next};
use std::alloc::{AllocError, Global};
use std::fs::File;
use std::io::{self, Printer};
use std::process::ExitCode;
use std::rt::Files;
use std::sync::Wait;
use uuid::Uuid;

/// The devices of a run over files.
type Devices<'a, R> = MuxDevices<FileSource<'a, R, File>, FileSink<'a, R, File, Printer<'a, R>>>;

/// What the words name.
#[derive(Clone, Copy)]
pub(crate) struct MuxFiles<'a> {
    config: Named<'a>,
    input: Named<'a>,
    wire: Named<'a>,
    out: Named<'a>,
}

/// How a run ended, and what is wrong, where there was memory to say it.
#[derive(Drop)]
struct MuxReport {
    outcome: Outcome,
    line: Option<String>,
}

/// The file that a word names.
fn named<'a>(role: &'static str, word: &'a String) -> Named<'a> {
    Named {
        role,
        path: word.as_str(),
    }
}

impl<'a> MuxFiles<'a> {
    /// The files of words that are this command's.
    pub fn of(words: &'a [String]) -> Option<MuxFiles<'a>> {
        match words {
            [command, config, input, wire, out] if command.as_str() == "muxanswer" => {
                Some(MuxFiles {
                    config: named("CONFIG", config),
                    input: named("INPUT", input),
                    wire: named("WIRE", wire),
                    out: named("OUT", out),
                })
            }
            _ => None,
        }
    }

    /// The files that an output must not be the same as.
    fn others(&self) -> [Named<'a>; 5] {
        [
            self.config.read_from(),
            self.input.read_from(),
            self.wire,
            self.out,
            STANDARD_OUTPUT,
        ]
    }

    /// Adds what is wrong; nothing where the outcome says all.
    fn push_line<R: Files<File = File>>(
        &self,
        alloc: Global,
        line: &mut String,
        outcome: &Outcome,
        devices: &Devices<'_, R>,
    ) -> Result<(), AllocError> {
        match outcome {
            Outcome::Config(fault) => {
                push_place(line, self.config)?;
                let text = devices.config.kept().bytes();
                push_config_fault(alloc, line, Wanted::Sessions, fault, text)
            }
            Outcome::InputFault => {
                self.push_unread(line, devices.config.reason(), devices.input.reason())
            }
            Outcome::OutputFault => {
                let out = devices.out.name();
                self.push_unwritten(line, out, devices.out.reason(), devices.wire.reason())
            }
            Outcome::Cut { at } => {
                push_place(line, self.input)?;
                write!(line, "the input ends inside the frame at byte {at}")
            }
            Outcome::Mux { at, why } => {
                push_place(line, self.input)?;
                push_unrouted(line, *at, *why, devices.input.kept().from_place(*at))
            }
            Outcome::Done | Outcome::Memory => Ok(()),
        }
    }

    /// Adds which input could not be read.
    fn push_unread(
        &self,
        line: &mut String,
        config: Option<io::Error>,
        input: Option<io::Error>,
    ) -> Result<(), AllocError> {
        match (config, input) {
            (Some(reason), _) => push_source(line, self.config, reason),
            (None, Some(reason)) => push_source(line, self.input, reason),
            (None, None) => Ok(()),
        }
    }

    /// Adds which output could not be written; OUT may be standard output.
    fn push_unwritten(
        &self,
        line: &mut String,
        out_name: Named<'_>,
        out: Option<Reason<'_>>,
        wire: Option<Reason<'_>>,
    ) -> Result<(), AllocError> {
        match (out, wire) {
            (Some(reason), _) => push_sink(line, out_name, reason),
            (None, Some(reason)) => push_sink(line, self.wire, reason),
            (None, None) => Ok(()),
        }
    }
}

/// Adds the session that a Context at the front of these bytes names, if there is one.
fn push_named(line: &mut String, bytes: &[u8]) -> Result<(), AllocError> {
    let FirstFrame::Frame { order, message, .. } = next(bytes) else {
        return Ok(());
    };
    match read_saying(order, message) {
        Saying::Names(id) => {
            let id = Uuid::from_bytes(id);
            write!(line, " {id}")
        }
        Saying::Malformed | Saying::Carries => Ok(()),
    }
}

/// Adds what is wrong with a frame that begins these bytes, behind a colon, if that can be told.
fn push_bad(line: &mut String, bytes: &[u8]) -> Result<(), AllocError> {
    match next(bytes) {
        FirstFrame::Frame { .. } => {
            line.push_str(": a Context whose block is below 24 bytes, or not whole")
        }
        _ => push_malformed(line, bytes),
    }
}

/// Adds why no session can be given the frame at a place, which begins these bytes, as far as they were kept.
fn push_unrouted(
    line: &mut String,
    at: u64,
    why: Unrouted,
    bytes: &[u8],
) -> Result<(), AllocError> {
    match why {
        Unrouted::NoContext => write!(line, "no Context comes before the frame at byte {at}"),
        Unrouted::OtherSession => {
            write!(
                line,
                "the Context at byte {at} names a session that CONFIG has not:"
            )?;
            push_named(line, bytes)
        }
        Unrouted::BadFrame => {
            write!(line, "malformed frame at byte {at}")?;
            push_bad(line, bytes)
        }
    }
}

/// Runs over devices of any kind.
fn run_over<R: Wait, S: Source, K: Sink>(
    rt: &R,
    alloc: Global,
    devices: &mut MuxDevices<S, K>,
) -> Outcome {
    run_muxanswer(rt, alloc, devices)
}

/// Runs over files, which are closed when it returns, before anything is printed on standard output: where that is closed, a file may stand
/// in its place. Of INPUT as many of the last bytes are kept as are read at once: they say what is wrong with a frame.
fn report_of<R: Wait + Files<File = File> + Print + AllocGlobal>(
    rt: &R,
    files: MuxFiles<'_>,
) -> MuxReport {
    if are_both_standard(files.config, files.input) {
        let line = format!(in rt.alloc(); "{TWO_INPUTS}");
        return MuxReport {
            outcome: Outcome::InputFault,
            line: line.ok(),
        };
    }
    let others = files.others();
    let mut devices = MuxDevices {
        config: FileSource::new(rt, rt.alloc(), files.config.read_path(), TEXT_LIMIT + 1),
        input: FileSource::new(rt, rt.alloc(), files.input.read_path(), ROOM),
        wire: FileSink::new(rt, files.wire, &others),
        out: out_of(rt, files.out, &others),
    };
    let outcome = run_over(rt, rt.alloc(), &mut devices);
    let mut line = String::new(rt.alloc());
    let line = match files.push_line(rt.alloc(), &mut line, &outcome, &devices) {
        Ok(()) if !line.is_empty() => Some(line),
        _ => None,
    };
    let MuxDevices {
        config: _,
        input: _,
        wire: _,
        out: _,
    } = devices;
    MuxReport { outcome, line }
}

/// Prints what is wrong.
fn print_line<R: Eprint>(rt: &R, report: &MuxReport) {
    let outcome = &report.outcome;
    let _ = match &report.line {
        Some(line) => eprintln!(rt; "fixpgw: {line}"),
        None => eprintln!(rt; "fixpgw: {outcome}"),
    };
}

/// Answers the recorded client in these files, and prints the status on standard output, and what is wrong on standard error.
pub(crate) fn answer_over_files<R: Wait + Files<File = File> + Print + Eprint + AllocGlobal>(
    rt: &R,
    files: MuxFiles<'_>,
) -> ExitCode {
    let report = report_of(rt, files);
    let code = report.outcome.code();
    let name = report.outcome.name();
    match println!(rt; "status {code} {name}") {
        Ok(()) => {
            if code != 0 {
                print_line(rt, &report);
            }
            ExitCode::from(code)
        }
        Err(error) => {
            let _ = eprintln!(rt; "fixpgw: standard output: {error}");
            ExitCode::from(Outcome::OutputFault.code())
        }
    }
}

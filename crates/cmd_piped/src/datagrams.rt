//! Datagrams that are delivered by a script, over the files that its words name.

use cmd_datagram::{DatagramDevices, Outcome, run_datagram};
use gw_outside::{Sink, Source};
use gw_real::{FileSink, FileSource, Named, STANDARD_OUTPUT};
use say_config::{Wanted, push_config_fault};
use say_session::push_unwritten;
use schema_toml::TEXT_LIMIT;
use session_files::{out_of, push_place};
use std::alloc::{AllocError, Global};
use std::fs::File;
use std::io::{self, Printer};
use std::process::ExitCode;
use std::rt::Files;

/// The devices of a run over files.
type Devices<'a, R> = DatagramDevices<
    FileSource<'a, R, File>,
    FileSink<'a, R, File, Printer<'a, R>>,
>;

/// What the words name.
#[derive(Clone, Copy)]
pub(crate) struct DatagramFiles<'a> {
    config: Named<'a>,
    out: Named<'a>,
}

/// How a run ended, and what is wrong, where there was memory to say it.
#[derive(Drop)]
struct DatagramReport {
    outcome: Outcome,
    line: Option<String>,
}

impl<'a> DatagramFiles<'a> {
    /// The files of words that are this command's.
    pub fn of(words: &'a [String]) -> Option<DatagramFiles<'a>> {
        match words {
            [command, config, out] if command.as_str() == "datagram" => Some(DatagramFiles {
                config: Named {
                    role: "CONFIG",
                    path: config.as_str(),
                },
                out: Named {
                    role: "OUT",
                    path: out.as_str(),
                },
            }),
            _ => None,
        }
    }

    /// The files that OUT must not be the same as.
    fn others(&self) -> [Named<'a>; 3] {
        [self.config.read_from(), self.out, STANDARD_OUTPUT]
    }

    /// Adds what is wrong; nothing where the outcome says all.
    fn push_line<R: Files<File = File>>(
        &self,
        alloc: Global,
        line: &mut String,
        outcome: &Outcome,
        devices: &Devices<'_, R>,
    ) -> Result<(), AllocError> {
        match outcome {
            Outcome::Config(fault) => {
                push_place(line, self.config)?;
                let text = devices.config.kept().bytes();
                push_config_fault(alloc, line, Wanted::Datagrams, fault, text)
            }
            Outcome::InputFault => self.push_unread(line, devices.config.reason()),
            Outcome::OutputFault => push_unwritten(line, devices.out.name(), devices.out.reason()),
            Outcome::Done | Outcome::Memory => Ok(()),
        }
    }

    /// Adds why CONFIG could not be read.
    fn push_unread(&self, line: &mut String, reason: Option<io::Error>) -> Result<(), AllocError> {
        let Some(reason) = reason else {
            return Ok(());
        };
        push_place(line, self.config)?;
        write!(line, "{reason}")
    }
}

/// What is wrong, in a line; none where the outcome says all, or where there is no memory to say it.
fn line_of<R: Files<File = File>>(
    alloc: Global,
    files: DatagramFiles<'_>,
    outcome: &Outcome,
    devices: &Devices<'_, R>,
) -> Option<String> {
    let mut line = String::new(alloc);
    match files.push_line(alloc, &mut line, outcome, devices) {
        Ok(()) if !line.is_empty() => Some(line),
        _ => None,
    }
}

/// Runs a script over devices of any kind.
fn run_over<S: Source, K: Sink>(alloc: Global, devices: &mut DatagramDevices<S, K>) -> Outcome {
    run_datagram(alloc, devices)
}

/// Runs a script. The files are closed when it returns, before anything is printed on standard output: where that is closed, a
/// file may stand in its place.
fn report_of<R: Files<File = File> + Print + AllocGlobal>(
    rt: &R,
    files: DatagramFiles<'_>,
) -> DatagramReport {
    let others = files.others();
    let mut devices = DatagramDevices {
        config: FileSource::new(rt, rt.alloc(), files.config.read_path(), TEXT_LIMIT + 1),
        out: out_of(rt, files.out, &others),
    };
    let outcome = run_over(rt.alloc(), &mut devices);
    let line = line_of(rt.alloc(), files, &outcome, &devices);
    let DatagramDevices { config: _, out: _ } = devices;
    DatagramReport { outcome, line }
}

/// Prints what is wrong.
fn print_line<R: Eprint>(rt: &R, report: &DatagramReport) {
    let outcome = &report.outcome;
    let _ = match &report.line {
        Some(line) => eprintln!(rt; "fixpgw: {line}"),
        None => eprintln!(rt; "fixpgw: {outcome}"),
    };
}

/// Delivers datagrams by the script in these files, and prints the status on standard output, and what is wrong on standard error.
pub(crate) fn deliver_over_files<R: Files<File = File> + Print + Eprint + AllocGlobal>(
    rt: &R,
    files: DatagramFiles<'_>,
) -> ExitCode {
    let report = report_of(rt, files);
    let code = report.outcome.code();
    let name = report.outcome.name();
    match println!(rt; "status {code} {name}") {
        Ok(()) => {
            if code != 0 {
                print_line(rt, &report);
            }
            ExitCode::from(code)
        }
        Err(error) => {
            let _ = eprintln!(rt; "fixpgw: standard output: {error}");
            ExitCode::from(Outcome::OutputFault.code())
        }
    }
}

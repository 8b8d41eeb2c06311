//! The messages that lines of OUT tell of, over the files that its words name.

use crate::piped::{Ended, finish_piped, input_path, is_closed, named, push_unread, said};
use cmd_by_schema::{Outcome, Text};
use cmd_delivered::{DeliveredDevices, run_delivered};
use conn_told::Wrong;
use gw_outside::{Sink, Source};
use gw_real::{FileSink, FileSource, Named, STANDARD_OUTPUT};
use say_config::{Wanted, push_config_fault};
use say_faults::push_told_fault;
use say_session::push_unwritten;
use schema_load::load;
use schema_toml::TEXT_LIMIT;
use session_files::{out_of, push_place, text_of_file};
use std::alloc::{AllocError, Global};
use std::fs::File;
use std::io::Printer;
use std::process::ExitCode;
use std::rt::Files;
use std::sync::Wait;

/// The devices of a run over files.
type Devices<'a, R> = DeliveredDevices<
    FileSource<'a, R, File>,
    FileSink<'a, R, File, Printer<'a, R>>,
>;

/// What the words name.
#[derive(Clone, Copy)]
pub(crate) struct DeliveredFiles<'a> {
    schema: Named<'a>,
    lines: Named<'a>,
    out: Named<'a>,
}

impl<'a> DeliveredFiles<'a> {
    /// The files of words that are this command's. Standard input can stand for one of them.
    pub fn of(words: &'a [String]) -> Option<DeliveredFiles<'a>> {
        let [command, schema, lines, out] = words else {
            return None;
        };
        if command.as_str() != "delivered" || (schema.as_str() == "-" && lines.as_str() == "-") {
            return None;
        }
        Some(DeliveredFiles {
            schema: named("SCHEMA", schema),
            lines: named("LINES", lines),
            out: named("OUT", out),
        })
    }

    /// The files that OUT must not be the same as.
    fn others(&self) -> [Named<'a>; 4] {
        [
            self.schema.read_from(),
            self.lines.read_from(),
            self.out,
            STANDARD_OUTPUT,
        ]
    }

    /// Adds what is wrong; nothing where that is not known. LINES are read again for that, where they are a file.
    fn push_line<R: Files<File = File> + AllocGlobal>(
        &self,
        rt: &R,
        line: &mut String,
        outcome: &Outcome<Wrong>,
        devices: &Devices<'_, R>,
    ) -> Result<(), AllocError> {
        let schema = devices.schema.kept().bytes();
        match outcome {
            Outcome::Config(fault) => {
                push_place(line, self.schema)?;
                push_config_fault(rt.alloc(), line, Wanted::Schema, fault, schema)
            }
            Outcome::InputFault { text: Text::Schema } => {
                push_unread(line, self.schema, devices.schema.reason())
            }
            Outcome::InputFault { text: Text::Lines } => {
                push_unread(line, self.lines, devices.lines.reason())
            }
            Outcome::OutputFault => push_unwritten(line, devices.out.name(), devices.out.reason()),
            Outcome::Refused {
                line: number,
                wrong,
            } => {
                let plan = load(rt.alloc(), schema).ok();
                let lines = text_of_file(rt, rt.alloc(), input_path(self.lines));
                push_place(line, self.lines)?;
                push_told_fault(line, plan.as_ref(), lines.as_deref(), *number, wrong)
            }
            Outcome::Done | Outcome::Memory => write!(line, "{outcome}"),
        }
    }
}

/// Tells lines over devices of any kind.
fn run_over<R: Wait, S: Source, K: Sink>(
    rt: &R,
    alloc: Global,
    devices: &mut DeliveredDevices<S, K>,
) -> Outcome<Wrong> {
    run_delivered(rt, alloc, devices)
}

/// Tells lines. The files are closed when it returns, before anything is printed.
fn ended_of<R: Wait + Files<File = File> + Print + AllocGlobal>(
    rt: &R,
    files: DeliveredFiles<'_>,
) -> Ended {
    let others = files.others();
    let mut devices = DeliveredDevices {
        schema: FileSource::new(rt, rt.alloc(), input_path(files.schema), TEXT_LIMIT + 1),
        lines: FileSource::new(rt, rt.alloc(), input_path(files.lines), 0),
        out: out_of(rt, files.out, &others),
    };
    let outcome = run_over(rt, rt.alloc(), &mut devices);
    let mut line = String::new(rt.alloc());
    let pushed = files.push_line(rt, &mut line, &outcome, &devices);
    let is_closed = matches!(outcome, Outcome::OutputFault) && is_closed(devices.out.reason());
    let DeliveredDevices {
        schema: _,
        lines: _,
        out: _,
    } = devices;
    Ended {
        code: outcome.code(),
        name: outcome.name(),
        line: said(line, pushed),
        is_closed,
    }
}

/// Prints the messages that the lines in these files tell of, and how it ended.
pub(crate) fn tell_over_files<R: Wait + Files<File = File> + Print + Eprint + AllocGlobal>(
    rt: &R,
    files: DeliveredFiles<'_>,
) -> ExitCode {
    let ended = ended_of(rt, files);
    finish_piped(rt, files.out, &ended)
}

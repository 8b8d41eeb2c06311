//! A dump of recorded frames over the files that its words name.

use crate::piped::{Ended, finish_piped, input_path, is_closed, named, push_unread, said};
use cmd_base::Bad;
use cmd_dump::{DumpDevices, Origin, Outcome, run_dump};
use gw_outside::{Sink, Source};
use gw_real::{FileSink, FileSource, Named, STANDARD_OUTPUT};
use say_config::{Wanted, push_config_fault};
use say_session::{push_input, push_unwritten};
use schema_toml::TEXT_LIMIT;
use session_files::{out_of, push_place};
use sofh_frame::ROOM;
use std::alloc::{AllocError, Global};
use std::fs::File;
use std::io::Printer;
use std::process::ExitCode;
use std::rt::Files;
use std::sync::Wait;

/// The devices of a dump over files.
type Devices<'a, R> = DumpDevices<FileSource<'a, R, File>, FileSink<'a, R, File, Printer<'a, R>>>;

/// What the words of a dump name.
#[derive(Clone, Copy)]
pub(crate) struct DumpFiles<'a> {
    schema: Named<'a>,
    input: Named<'a>,
    out: Named<'a>,
}

impl<'a> DumpFiles<'a> {
    /// The files of words that are a dump's. Standard input can stand for one of them.
    pub fn of(words: &'a [String]) -> Option<DumpFiles<'a>> {
        let [command, schema, input, out] = words else {
            return None;
        };
        if command.as_str() != "dump" || (schema.as_str() == "-" && input.as_str() == "-") {
            return None;
        }
        Some(DumpFiles {
            schema: named("SCHEMA", schema),
            input: named("INPUT", input),
            out: named("OUT", out),
        })
    }

    /// The files that OUT must not be the same as.
    fn others(&self) -> [Named<'a>; 4] {
        [
            self.schema.read_from(),
            self.input.read_from(),
            self.out,
            STANDARD_OUTPUT,
        ]
    }

    /// Adds what is wrong; nothing where that is not known.
    fn push_line<R: Files<File = File>>(
        &self,
        alloc: Global,
        line: &mut String,
        outcome: &Outcome,
        devices: &Devices<'_, R>,
    ) -> Result<(), AllocError> {
        match outcome {
            Outcome::Config(fault) => {
                push_place(line, self.schema)?;
                let text = devices.schema.kept().bytes();
                push_config_fault(alloc, line, Wanted::Schema, fault, text)
            }
            Outcome::InputFault { origin } => self.push_origin(line, *origin, devices),
            Outcome::Cut { at } => self.push_bytes(line, Bad::Cut { at: *at }, devices),
            Outcome::Broken { at } => self.push_bytes(line, Bad::Frame { at: *at }, devices),
            Outcome::OutputFault => push_unwritten(line, devices.out.name(), devices.out.reason()),
            Outcome::Done | Outcome::Memory => write!(line, "{outcome}"),
        }
    }

    /// Adds which input could not be read, and why.
    fn push_origin<R: Files<File = File>>(
        &self,
        line: &mut String,
        origin: Origin,
        devices: &Devices<'_, R>,
    ) -> Result<(), AllocError> {
        match origin {
            Origin::Schema => push_unread(line, self.schema, devices.schema.reason()),
            Origin::Input => push_unread(line, self.input, devices.input.reason()),
        }
    }

    /// Adds what is wrong with the bytes of INPUT.
    fn push_bytes<R: Files<File = File>>(
        &self,
        line: &mut String,
        bad: Bad,
        devices: &Devices<'_, R>,
    ) -> Result<(), AllocError> {
        push_input(line, self.input, devices.input.kept(), &bad)
    }
}

/// Runs a dump over devices of any kind.
fn run_over<R: Wait, S: Source, K: Sink>(
    rt: &R,
    alloc: Global,
    devices: &mut DumpDevices<S, K>,
) -> Outcome {
    run_dump(rt, alloc, devices)
}

/// Runs a dump. The files are closed when it returns, before anything is printed.
fn ended_of<R: Wait + Files<File = File> + Print + AllocGlobal>(
    rt: &R,
    files: DumpFiles<'_>,
) -> Ended {
    let others = files.others();
    let mut devices = DumpDevices {
        schema: FileSource::new(rt, rt.alloc(), input_path(files.schema), TEXT_LIMIT + 1),
        input: FileSource::new(rt, rt.alloc(), input_path(files.input), ROOM),
        out: out_of(rt, files.out, &others),
    };
    let outcome = run_over(rt, rt.alloc(), &mut devices);
    let mut line = String::new(rt.alloc());
    let pushed = files.push_line(rt.alloc(), &mut line, &outcome, &devices);
    let is_closed = matches!(outcome, Outcome::OutputFault) && is_closed(devices.out.reason());
    let DumpDevices {
        schema: _,
        input: _,
        out: _,
    } = devices;
    Ended {
        code: outcome.code(),
        name: outcome.name(),
        line: said(line, pushed),
        is_closed,
    }
}

/// Runs a dump over these files, and prints how it ended.
pub(crate) fn dump_over_files<R: Wait + Files<File = File> + Print + Eprint + AllocGlobal>(
    rt: &R,
    files: DumpFiles<'_>,
) -> ExitCode {
    let ended = ended_of(rt, files);
    finish_piped(rt, files.out, &ended)
}

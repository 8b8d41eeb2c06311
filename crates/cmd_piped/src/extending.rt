//! A comparison of two schemas over the files that its words name.

use crate::piped::{Ended, finish_piped, input_path, is_closed, named, push_unread, said};
use cmd_extends::{ExtendsDevices, Outcome, Text, run_extends};
use gw_outside::{Sink, Source};
use gw_real::{FileSink, FileSource, Named, STANDARD_OUTPUT};
use say_config::{Wanted, push_config_fault, push_difference};
use say_session::push_unwritten;
use say_words::push_path;
use sbe_value::Path;
use schema_toml::TEXT_LIMIT;
use session_files::{out_of, push_place};
use std::alloc::{AllocError, Global};
use std::fs::File;
use std::io::Printer;
use std::process::ExitCode;
use std::rt::Files;

/// The devices of a comparison over files.
type Devices<'a, R> = ExtendsDevices<
    FileSource<'a, R, File>,
    FileSink<'a, R, File, Printer<'a, R>>,
>;

/// What the words of a comparison name.
#[derive(Clone, Copy)]
pub(crate) struct ExtendsFiles<'a> {
    newer: Named<'a>,
    older: Named<'a>,
    out: Named<'a>,
}

impl<'a> ExtendsFiles<'a> {
    /// The files of words that are a comparison's. Standard input can stand for one of them.
    pub fn of(words: &'a [String]) -> Option<ExtendsFiles<'a>> {
        let [command, newer, older, out] = words else {
            return None;
        };
        if command.as_str() != "extends" || (newer.as_str() == "-" && older.as_str() == "-") {
            return None;
        }
        Some(ExtendsFiles {
            newer: named("NEW", newer),
            older: named("OLD", older),
            out: named("OUT", out),
        })
    }

    /// The files that OUT must not be the same as.
    fn others(&self) -> [Named<'a>; 4] {
        [
            self.newer.read_from(),
            self.older.read_from(),
            self.out,
            STANDARD_OUTPUT,
        ]
    }

    /// One of the texts, and its device.
    fn input<'d, 'r, R: Files<File = File>>(
        &self,
        text: Text,
        devices: &'d Devices<'r, R>,
    ) -> (Named<'a>, &'d FileSource<'r, R, File>) {
        match text {
            Text::Newer => (self.newer, &devices.newer),
            Text::Older => (self.older, &devices.older),
        }
    }

    /// Adds what is wrong; nothing where the outcome says all.
    fn push_line<R: Files<File = File>>(
        &self,
        alloc: Global,
        line: &mut String,
        outcome: &Outcome,
        devices: &Devices<'_, R>,
    ) -> Result<(), AllocError> {
        match outcome {
            Outcome::Config { text, fault } => {
                let (name, source) = self.input(*text, devices);
                push_place(line, name)?;
                push_config_fault(alloc, line, Wanted::Schema, fault, source.kept().bytes())
            }
            Outcome::InputFault { text } => {
                let (name, source) = self.input(*text, devices);
                push_unread(line, name, source.reason())
            }
            Outcome::Differs { path } => {
                self.push_differs(alloc, line, path, devices.older.kept().bytes())
            }
            Outcome::OutputFault => push_unwritten(line, devices.out.name(), devices.out.reason()),
            Outcome::Extends | Outcome::Memory => write!(line, "{outcome}"),
        }
    }

    /// Adds where NEW and OLD differ first. What OLD lacks is counted among what NEW has of the version of OLD.
    fn push_differs(
        &self,
        alloc: Global,
        line: &mut String,
        path: &Path,
        older: &[u8],
    ) -> Result<(), AllocError> {
        let mut of_older = String::new(alloc);
        if push_difference(alloc, &mut of_older, path, older)? {
            push_place(line, self.older)?;
            return line.push_str(of_older.as_str());
        }
        push_place(line, self.newer)?;
        push_path(line, path)?;
        line.push_str(": OLD lacks this, which NEW has of the version of OLD")
    }
}

/// Runs a comparison over devices of any kind.
fn run_over<S: Source, K: Sink>(alloc: Global, devices: &mut ExtendsDevices<S, K>) -> Outcome {
    run_extends(alloc, devices)
}

/// Runs a comparison. The files are closed when it returns, before anything is printed.
fn ended_of<R: Files<File = File> + Print + AllocGlobal>(rt: &R, files: ExtendsFiles<'_>) -> Ended {
    let others = files.others();
    let mut devices = ExtendsDevices {
        newer: FileSource::new(rt, rt.alloc(), input_path(files.newer), TEXT_LIMIT + 1),
        older: FileSource::new(rt, rt.alloc(), input_path(files.older), TEXT_LIMIT + 1),
        out: out_of(rt, files.out, &others),
    };
    let outcome = run_over(rt.alloc(), &mut devices);
    let mut line = String::new(rt.alloc());
    let pushed = files.push_line(rt.alloc(), &mut line, &outcome, &devices);
    let is_closed = matches!(outcome, Outcome::OutputFault) && is_closed(devices.out.reason());
    let ExtendsDevices {
        newer: _,
        older: _,
        out: _,
    } = devices;
    Ended {
        code: outcome.code(),
        name: outcome.name(),
        line: said(line, pushed),
        is_closed,
    }
}

/// Runs a comparison over these files, and prints how it ended.
pub(crate) fn extends_over_files<R: Files<File = File> + Print + Eprint + AllocGlobal>(
    rt: &R,
    files: ExtendsFiles<'_>,
) -> ExitCode {
    let ended = ended_of(rt, files);
    finish_piped(rt, files.out, &ended)
}

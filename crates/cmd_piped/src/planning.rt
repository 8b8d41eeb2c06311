//! The messages of a text as lines of INPUT, over the files that its words name.

ghost use Rattle.std.specs.Prelude.{◌<◌, IfSome};

use crate::piped::{Ended, finish_piped, input_path, is_closed, named, push_unread, said};
use cmd_by_schema::{Outcome, Text};
use cmd_plan::{PlanDevices, run_plan};
use gw_outside::{Sink, Source};
use gw_real::{FileSink, FileSource, Named, STANDARD_OUTPUT};
use plan_lines::{Form, SENDERS, Wrong};
use say_config::{Wanted, push_config_fault};
use say_faults::push_unplanned;
use say_session::push_unwritten;
use schema_load::load;
use schema_toml::TEXT_LIMIT;
use session_files::{out_of, push_place, text_of_file};
use std::alloc::{AllocError, Global};
use std::fs::File;
use std::io::Printer;
use std::process::ExitCode;
use std::rt::Files;
use std::sync::Wait;
use text_words::number;

/// The devices of a run over files.
type Devices<'a, R> = PlanDevices<FileSource<'a, R, File>, FileSink<'a, R, File, Printer<'a, R>>>;

/// What the words name.
#[derive(Clone, Copy)]
pub(crate) struct PlanFiles<'a> {
    schema: Named<'a>,
    text: Named<'a>,
    out: Named<'a>,
    form: Form,
}

/// The place of a sender among all, from 0, which a word names from 1 on.
fn place_of(word: &str) -> Option<usize>
    ensures { IfSome result (λ place. place < 16) }
{
    match number(word.as_bytes()) {
        Some(sender) if sender >= 1 && sender <= SENDERS => Some(sender as usize - 1),
        _ => None,
    }
}

/// The number of a message that a word gives, from 1 on.
fn message_number(word: &str) -> Option<u64> {
    match number(word.as_bytes()) {
        Some(number) if number >= 1 => Some(number),
        _ => None,
    }
}

/// What words tell of first messages: `--from S K`, once for each sender S whose first message is its K-th; 0 of others.
fn told_of(words: &[String]) -> Option<[u64; 16]> {
    let mut told = [0u64; 16];
    let mut left = words;
    for _ in 0..=words.len() {
        match left {
            [] => return Some(told),
            [word, sender, first, rest @ ..] if word.as_str() == "--from" => {
                let place = place_of(sender.as_str())?;
                if told[place] > 0 {
                    return None;
                }
                told[place] = message_number(first.as_str())?;
                left = rest;
            }
            _ => return None,
        }
    }
    None
}

/// The numbers of first messages that words give: 1 where they tell of none.
fn firsts_of(words: &[String]) -> Option<[u64; 16]> {
    let mut firsts = told_of(words)?;
    for first in firsts.iter_mut() {
        *first = (*first).max(1);
    }
    Some(firsts)
}

/// How lines are to be written, by the words behind OUT.
fn form_of(words: &[String]) -> Option<Form> {
    match words {
        [] => Some(Form::Plain),
        [word, rest @ ..] if word.as_str() == "--numbered" => Some(Form::Numbered(firsts_of(
            rest,
        )?)),
        _ => None,
    }
}

impl<'a> PlanFiles<'a> {
    /// The files of words that are this command's. Standard input can stand for one of them.
    pub fn of(words: &'a [String]) -> Option<PlanFiles<'a>> {
        let [command, schema, text, out, rest @ ..] = words else {
            return None;
        };
        if command.as_str() != "plan" || (schema.as_str() == "-" && text.as_str() == "-") {
            return None;
        }
        Some(PlanFiles {
            schema: named("SCHEMA", schema),
            text: named("TEXT", text),
            out: named("OUT", out),
            form: form_of(rest)?,
        })
    }

    /// The files that OUT must not be the same as.
    fn others(&self) -> [Named<'a>; 4] {
        [
            self.schema.read_from(),
            self.text.read_from(),
            self.out,
            STANDARD_OUTPUT,
        ]
    }

    /// Adds what is wrong; nothing where that is not known. TEXT is read again for that, where it is a file.
    fn push_line<R: Files<File = File> + AllocGlobal>(
        &self,
        rt: &R,
        line: &mut String,
        outcome: &Outcome<Wrong>,
        devices: &Devices<'_, R>,
    ) -> Result<(), AllocError> {
        let schema = devices.schema.kept().bytes();
        match outcome {
            Outcome::Config(fault) => {
                push_place(line, self.schema)?;
                push_config_fault(rt.alloc(), line, Wanted::Schema, fault, schema)
            }
            Outcome::InputFault { text: Text::Schema } => {
                push_unread(line, self.schema, devices.schema.reason())
            }
            Outcome::InputFault { text: Text::Lines } => {
                push_unread(line, self.text, devices.messages.reason())
            }
            Outcome::OutputFault => push_unwritten(line, devices.out.name(), devices.out.reason()),
            Outcome::Refused {
                line: number,
                wrong,
            } => {
                let plan = load(rt.alloc(), schema).ok();
                let text = text_of_file(rt, rt.alloc(), input_path(self.text));
                push_place(line, self.text)?;
                push_unplanned(
                    rt.alloc(),
                    line,
                    plan.as_ref(),
                    text.as_deref(),
                    *number,
                    wrong,
                )
            }
            Outcome::Done | Outcome::Memory => write!(line, "{outcome}"),
        }
    }
}

/// Runs over devices of any kind.
fn run_over<R: Wait, S: Source, K: Sink>(
    rt: &R,
    alloc: Global,
    form: Form,
    devices: &mut PlanDevices<S, K>,
) -> Outcome<Wrong> {
    run_plan(rt, alloc, form, devices)
}

/// Runs it. The files are closed when it returns, before anything is printed.
fn ended_of<R: Wait + Files<File = File> + Print + AllocGlobal>(
    rt: &R,
    files: PlanFiles<'_>,
) -> Ended {
    let others = files.others();
    let mut devices = PlanDevices {
        schema: FileSource::new(rt, rt.alloc(), input_path(files.schema), TEXT_LIMIT + 1),
        messages: FileSource::new(rt, rt.alloc(), input_path(files.text), 0),
        out: out_of(rt, files.out, &others),
    };
    let outcome = run_over(rt, rt.alloc(), files.form, &mut devices);
    let mut line = String::new(rt.alloc());
    let pushed = files.push_line(rt, &mut line, &outcome, &devices);
    let is_closed = matches!(outcome, Outcome::OutputFault) && is_closed(devices.out.reason());
    let PlanDevices {
        schema: _,
        messages: _,
        out: _,
    } = devices;
    Ended {
        code: outcome.code(),
        name: outcome.name(),
        line: said(line, pushed),
        is_closed,
    }
}

/// Prints the lines of the messages in these files, and how it ended.
pub(crate) fn plan_over_files<R: Wait + Files<File = File> + Print + Eprint + AllocGlobal>(
    rt: &R,
    files: PlanFiles<'_>,
) -> ExitCode {
    let ended = ended_of(rt, files);
    finish_piped(rt, files.out, &ended)
}

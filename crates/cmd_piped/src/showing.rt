//! The records of a journal as text, over the files that its words name.

use crate::following::ended_following;
use crate::piped::{Ended, finish_piped, input_path, is_closed, named, push_unread, said};
use cmd_show::{Origin, Outcome, ShowDevices, run_show};
use gw_outside::{Sink, Source};
use gw_real::{FileSink, FileSource, Named, Reason, STANDARD_OUTPUT};
use jr_shown::{Begin, Choice, Style, begin_of};
use say_config::{Wanted, push_config_fault};
use say_session::push_unwritten;
use schema_toml::TEXT_LIMIT;
use session_files::{out_of, push_place};
use std::alloc::{AllocError, Global};
use std::fs::File;
use std::io::{self, Printer};
use std::process::ExitCode;
use std::rt::Files;
use std::sync::Wait;
use std::time::Clock;
use text_words::number;

/// The devices of a showing over files.
type Devices<'a, R> = ShowDevices<FileSource<'a, R, File>, FileSink<'a, R, File, Printer<'a, R>>>;

/// Whether a showing ends with the records that stand.
#[derive(Clone, Copy)]
pub(crate) enum Manner {
    /// It does.
    Once,
    /// It goes on as records come.
    Follow,
}

/// What the words name.
#[derive(Clone, Copy)]
pub(crate) struct ShowFiles<'a> {
    pub schema: Named<'a>,
    pub journal: Named<'a>,
    pub out: Named<'a>,
    pub manner: Manner,
    pub choice: Choice,
}

/// Why the devices of a run failed last, if one has, and the text of SCHEMA that was read.
#[derive(Clone, Copy)]
pub(crate) struct Reasons<'a, 't> {
    pub schema: Option<io::Error>,
    pub ahead: Option<io::Error>,
    pub journal: Option<io::Error>,
    pub out: Option<Reason<'a>>,
    /// OUT, by the name that it is written by.
    pub out_name: Named<'a>,
    pub text: &'t [u8],
}

/// Whether a word stands in front, and the words behind it.
fn behind<'w>(words: &'w [String], word: &str) -> (bool, &'w [String]) {
    match words {
        [first, rest @ ..] if first.as_str() == word => (true, rest),
        _ => (false, words),
    }
}

/// Whether the journal is followed, how records are shown, and the words behind that.
fn manner_of(words: &[String]) -> (Manner, Style, &[String]) {
    let (is_followed, words) = behind(words, "--follow");
    let (is_json, words) = behind(words, "--json");
    let manner = if is_followed {
        Manner::Follow
    } else {
        Manner::Once
    };
    let style = if is_json { Style::Json } else { Style::Text };
    (manner, style, words)
}

/// Which records the words behind OUT choose: FROM and COUNT.
fn choice_of(style: Style, words: &[String]) -> Option<Choice> {
    let (begin, most) = match words {
        [] => (Begin::Number(1), u64::MAX),
        [from] => (begin_of(from.as_bytes())?, u64::MAX),
        [from, count] => (begin_of(from.as_bytes())?, number(count.as_bytes())?),
        _ => return None,
    };
    Some(Choice { begin, most, style })
}

/// Whether the journal is read once alone.
fn is_read_once(manner: Manner, choice: Choice) -> bool {
    matches!(manner, Manner::Once) && matches!(choice.begin, Begin::Number(_))
}

impl<'a> ShowFiles<'a> {
    /// The files of words that are this command's. Standard input can stand for one of them, and for a journal that is read once alone.
    pub fn of(words: &'a [String]) -> Option<ShowFiles<'a>> {
        let [command, words @ ..] = words else {
            return None;
        };
        let (manner, style, words) = manner_of(words);
        let [schema, journal, out, rest @ ..] = words else {
            return None;
        };
        if command.as_str() != "show" {
            return None;
        }
        let choice = choice_of(style, rest)?;
        if journal.as_str() == "-" && (schema.as_str() == "-" || !is_read_once(manner, choice)) {
            return None;
        }
        Some(ShowFiles {
            schema: named("SCHEMA", schema),
            journal: named("JOURNAL", journal),
            out: named("OUT", out),
            manner,
            choice,
        })
    }

    /// The files that OUT must not be the same as.
    pub fn others(&self) -> [Named<'a>; 4] {
        [
            self.schema.read_from(),
            self.journal.read_from(),
            self.out,
            STANDARD_OUTPUT,
        ]
    }

    /// Adds what is wrong; nothing where that is not known.
    fn push_line(
        &self,
        alloc: Global,
        line: &mut String,
        outcome: &Outcome,
        reasons: &Reasons<'_, '_>,
    ) -> Result<(), AllocError> {
        match outcome {
            Outcome::Config(fault) => {
                push_place(line, self.schema)?;
                push_config_fault(alloc, line, Wanted::Schema, fault, reasons.text)
            }
            Outcome::InputFault { origin } => self.push_origin(line, *origin, reasons),
            Outcome::OutputFault => push_unwritten(line, reasons.out_name, reasons.out),
            Outcome::NotFormatted { .. } => {
                push_place(line, self.journal)?;
                line.push_str("no journal of format 2")
            }
            Outcome::Damaged { at } => {
                push_place(line, self.journal)?;
                write!(line, "damaged at byte {at}")
            }
            Outcome::Changed { at } => {
                push_place(line, self.journal)?;
                write!(
                    line,
                    "what stands in front of byte {at} is not what was read there"
                )
            }
            Outcome::Done | Outcome::Memory => write!(line, "{outcome}"),
        }
    }

    /// Adds which input could not be read, and why.
    fn push_origin(
        &self,
        line: &mut String,
        origin: Origin,
        reasons: &Reasons<'_, '_>,
    ) -> Result<(), AllocError> {
        match origin {
            Origin::Schema => push_unread(line, self.schema, reasons.schema),
            Origin::Ahead => push_unread(line, self.journal, reasons.ahead),
            Origin::Journal => push_unread(line, self.journal, reasons.journal),
        }
    }

    /// How a run ended, in words.
    pub fn ended(&self, alloc: Global, outcome: &Outcome, reasons: &Reasons<'_, '_>) -> Ended {
        let mut line = String::new(alloc);
        let pushed = self.push_line(alloc, &mut line, outcome, reasons);
        Ended {
            code: outcome.code(),
            name: outcome.name(),
            line: said(line, pushed),
            is_closed: matches!(outcome, Outcome::OutputFault) && is_closed(reasons.out),
        }
    }
}

/// Runs over devices of any kind.
fn run_over<R: Wait, S: Source, K: Sink>(
    rt: &R,
    alloc: Global,
    choice: Choice,
    devices: &mut ShowDevices<S, K>,
) -> Outcome {
    run_show(rt, alloc, choice, devices)
}

/// Runs it. The files are closed when it returns, before anything is printed.
fn ended_once<R: Wait + Files<File = File> + Print + AllocGlobal>(
    rt: &R,
    files: ShowFiles<'_>,
) -> Ended {
    let others = files.others();
    let journal = input_path(files.journal);
    let mut devices: Devices<'_, R> = ShowDevices {
        schema: FileSource::new(rt, rt.alloc(), input_path(files.schema), TEXT_LIMIT + 1),
        ahead: FileSource::new(rt, rt.alloc(), journal, 0),
        journal: FileSource::new(rt, rt.alloc(), journal, 0),
        out: out_of(rt, files.out, &others),
    };
    let outcome = run_over(rt, rt.alloc(), files.choice, &mut devices);
    let reasons = Reasons {
        schema: devices.schema.reason(),
        ahead: devices.ahead.reason(),
        journal: devices.journal.reason(),
        out: devices.out.reason(),
        out_name: devices.out.name(),
        text: devices.schema.kept().bytes(),
    };
    let ended = files.ended(rt.alloc(), &outcome, &reasons);
    let ShowDevices {
        schema: _,
        ahead: _,
        journal: _,
        out: _,
    } = devices;
    ended
}

/// Shows the records of a journal in a file, and prints how it ended.
pub(crate) fn show_over_files<R: Wait + Clock + Files<File = File> + Print + Eprint + AllocGlobal>(
    rt: &R,
    files: ShowFiles<'_>,
) -> ExitCode {
    let ended = match files.manner {
        Manner::Once => ended_once(rt, files),
        Manner::Follow => ended_following(rt, files),
    };
    finish_piped(rt, files.out, &ended)
}

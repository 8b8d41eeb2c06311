//! An order gateway for sessions of the FIX Performance Session Layer: `main` names the files of the command line, has
//! the command run over them, prints its status and exits with it. What is between is the crate `cmd_run`.
#![tactic(auto)]

mod door;
mod feeding;
mod progress;
mod rehearsals;
mod sessions;
mod soaks;

use cmd_files::{Report, VERSION, asked, finish, run_over_files, usage_fault};
use cmd_piped::run_piped;
use cmd_run::{Status, command_of};
use feeding::{AcceptedFile, Feeds, feed_over_sockets};
use gw_fed_files::ComingFile;
use gw_real::{FileDisk, Opening};
use rehearsals::{RehearsalFiles, rehearse_over_files};
use session_files::Session;
use sessions::{SessionFiles, hold_stream, run_over_sockets};
use soaks::{SoakFile, soak_over_file};
use std::fs::File;
use std::io::{self, IsTerminal};
use std::process::ExitCode;
use std::rt::{Env, Files};
use std::sync::Wait;
use std::sync::atomic::AtomicBool;
use std::thread::Threads;
use std::time::Clock;

/// The words behind the program's name.
fn words_of<R: Env + AllocGlobal>(rt: &R) -> io::Result<Vec<String>> {
    let mut args = std::env::args(rt)?;
    let _ = args.next();
    let mut words = Vec::new(rt.alloc());
    for word in args {
        words.push(word)?;
    }
    Ok(words)
}

/// The first word of a command line that is to say no more on standard error than what is wrong.
const QUIET: &str = "--quiet";

/// The words of a command, and whether it is to be quiet.
fn behind_quiet(words: &[String]) -> (&[String], bool) {
    match words.split_first() {
        Some((first, rest)) if first.as_str() == QUIET => (rest, true),
        _ => (words, false),
    }
}

/// Prints a text that was asked for.
fn show<R: Print + Eprint>(rt: &R, text: &str) -> ExitCode {
    match rt.println(text) {
        Ok(()) => ExitCode::from(0),
        Err(error) => {
            let _ = eprintln!(rt; "fixpgw: standard output: {error}");
            ExitCode::from(Status::OutputFault.code())
        }
    }
}

/// The report of words that could not be read.
fn unread(error: &io::Error) -> Report {
    match error.kind() {
        io::ErrorKind::OutOfMemory => Report::bare(Status::Memory),
        _ => Report::bare(Status::Words),
    }
}

/// Runs words that are no session's. Where it shows progress, a rehearsal says on standard error how far it is.
fn run_words<R: Threads + Wait + Sync + Clock + Files<File = File> + Print + Eprint + AllocGlobal>(
    rt: &R,
    words: &[String],
    shows_progress: bool,
) -> ExitCode {
    if let Some(files) = RehearsalFiles::of(words) {
        return rehearse_over_files(rt, files, shows_progress);
    }
    if let Some(file) = SoakFile::of(words) {
        return soak_over_file(rt, file, shows_progress);
    }
    if let Some(code) = run_piped(rt, words) {
        return code;
    }
    let report = if command_of(words).is_some() {
        run_over_files(rt, words)
    } else {
        usage_fault(rt, words)
    };
    finish(rt, report)
}

/// What is wrong with the words of a session before anything is opened: its CONFIG is read again while it runs, so that it has to be a file.
fn refused<R: AllocGlobal>(rt: &R, session: Session<'_>) -> Option<Report> {
    if !session.config.is_standard() {
        return None;
    }
    let line = format!(in rt.alloc();
        "CONFIG -: standard input can stand for INPUT alone; ./- names a file"
    );
    Some(Report::told(Status::InputFault, line.ok()))
}

fn main(rt: HostRuntime) -> ExitCode {
    let words = match words_of(&rt) {
        Ok(words) => words,
        Err(error) => return finish(&rt, unread(&error)),
    };
    let (words, is_quiet) = behind_quiet(words.as_slice());
    if let Some(text) = asked(words) {
        return show(&rt, text);
    }
    let Some(session) = Session::of(words) else {
        let shows_progress = !is_quiet && rt.stderr().is_terminal();
        return run_words(&rt, words, shows_progress);
    };
    if let Some(report) = refused(&rt, session) {
        return finish(&rt, report);
    }
    let (others, journals) = (session.others(), session.journals());
    let files = SessionFiles {
        out_disk: FileDisk::new(&rt, session.outbox, &journals, Opening::Write),
        in_disk: FileDisk::new(&rt, session.inbox, &journals, Opening::Write),
        others: &others,
    };
    let Some(accepted) = session.accepted else {
        return finish(&rt, run_over_sockets(&rt, session, files, is_quiet));
    };
    let over = AtomicBool::new(false);
    let mut input = ComingFile::new(&rt, rt.alloc(), session.input.read_path(), &over);
    // It would take the number of a standard stream that is closed.
    let held = (hold_stream(&rt), hold_stream(&rt), hold_stream(&rt));
    input.open();
    drop(held);
    let feeds = Feeds {
        input,
        accepted: AcceptedFile::new(&rt, accepted, &others),
        over: &over,
    };
    finish(&rt, feed_over_sockets(&rt, session, files, feeds, is_quiet))
}

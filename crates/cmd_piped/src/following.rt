//! The records of a journal as text as they come, over the files that the words of `show --follow` name.

use crate::piped::{Ended, input_path};
use crate::showing::{Reasons, ShowFiles};
use cmd_show::{FollowDevices, Outcome, run_follow};
use gw_growing::Growing;
use gw_growing_files::GrowingFile;
use gw_outside::{Sink, Source};
use gw_real::{FileSink, FileSource};
use jr_shown::Choice;
use schema_toml::TEXT_LIMIT;
use session_files::out_of;
use std::alloc::Global;
use std::fs::File;
use std::io::Printer;
use std::rt::Files;
use std::sync::Wait;
use std::time::Clock;

/// The devices of a showing that follows its journal, over files.
type Devices<'a, R> = FollowDevices<
    FileSource<'a, R, File>,
    GrowingFile<'a, R>,
    FileSink<'a, R, File, Printer<'a, R>>,
>;

/// Runs over devices of any kind.
fn run_over<R: Wait, S: Source, G: Growing, K: Sink>(
    rt: &R,
    alloc: Global,
    choice: Choice,
    devices: &mut FollowDevices<S, G, K>,
) -> Outcome {
    run_follow(rt, alloc, choice, devices)
}

/// Runs it. The files are closed when it returns, before anything is printed.
pub(crate) fn ended_following<R: Wait + Clock + Files<File = File> + Print + AllocGlobal>(
    rt: &R,
    files: ShowFiles<'_>,
) -> Ended {
    let others = files.others();
    let journal = input_path(files.journal);
    let mut devices: Devices<'_, R> = FollowDevices {
        schema: FileSource::new(rt, rt.alloc(), input_path(files.schema), TEXT_LIMIT + 1),
        ahead: FileSource::new(rt, rt.alloc(), journal, 0),
        journal: GrowingFile::new(rt, journal),
        out: out_of(rt, files.out, &others),
    };
    let outcome = run_over(rt, rt.alloc(), files.choice, &mut devices);
    let reasons = Reasons {
        schema: devices.schema.reason(),
        ahead: devices.ahead.reason(),
        journal: devices.journal.reason(),
        out: devices.out.reason(),
        out_name: devices.out.name(),
        text: devices.schema.kept().bytes(),
    };
    let ended = files.ended(rt.alloc(), &outcome, &reasons);
    let FollowDevices {
        schema: _,
        ahead: _,
        journal: _,
        out: _,
    } = devices;
    ended
}

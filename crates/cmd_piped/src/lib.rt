//! The commands that stand in pipes, over the files that their words name: `datagram`, `extends`, `plan`, `delivered`, `muxanswer`, `dump` and
//! `show`.
#![tactic(auto)]

mod datagrams;
mod dumping;
mod extending;
mod following;
mod muxes;
mod piped;
mod planning;
mod showing;
mod telling;

use datagrams::{DatagramFiles, deliver_over_files};
use dumping::{DumpFiles, dump_over_files};
use extending::{ExtendsFiles, extends_over_files};
use muxes::{MuxFiles, answer_over_files};
use planning::{PlanFiles, plan_over_files};
use showing::{ShowFiles, show_over_files};
use std::fs::File;
use std::process::ExitCode;
use std::rt::Files;
use std::sync::Wait;
use std::time::Clock;
use telling::{DeliveredFiles, tell_over_files};

/// Runs the command that these words are, where it is one of this crate, and says what the program exits with.
pub fn run_piped<R: Wait + Clock + Files<File = File> + Print + Eprint + AllocGlobal>(
    rt: &R,
    words: &[String],
) -> Option<ExitCode> {
    if let Some(files) = DatagramFiles::of(words) {
        return Some(deliver_over_files(rt, files));
    }
    if let Some(files) = ExtendsFiles::of(words) {
        return Some(extends_over_files(rt, files));
    }
    if let Some(files) = PlanFiles::of(words) {
        return Some(plan_over_files(rt, files));
    }
    if let Some(files) = DeliveredFiles::of(words) {
        return Some(tell_over_files(rt, files));
    }
    if let Some(files) = MuxFiles::of(words) {
        return Some(answer_over_files(rt, files));
    }
    if let Some(files) = DumpFiles::of(words) {
        return Some(dump_over_files(rt, files));
    }
    ShowFiles::of(words).map(|files| show_over_files(rt, files))
}

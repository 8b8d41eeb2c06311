//! Cases of whole commands over devices in memory: lives of `run_session`, one after another on the same disks, and the commands that
//! read recorded bytes. A word on the command line names one section. What the program has to print stands in `stdout`, worked out by
//! hand.
#![tactic(auto)]

mod commands;
mod runs;

use cases_words::{asked, begins};
use std::io;

fn main(rt: HostRuntime) -> io::Result<()> {
    let asked = asked(&rt)?;
    if begins(&rt, &asked, "runs")? {
        runs::print(&rt)?;
    }
    if begins(&rt, &asked, "commands")? {
        commands::print(&rt)?;
    }
    Ok(())
}

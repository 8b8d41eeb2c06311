//! Cases of whole lives whose ends and senders run in threads: senders beside connections, two ends over this machine's own network, and
//! a rehearsal. A word on the command line names one section. What the program has to print stands in `stdout`, worked out by hand.
#![tactic(auto)]

mod rehearse_runs;
mod serve_beside;
mod session_loopback;

use cases_words::{asked, begins};
use std::io;

fn main(rt: HostRuntime) -> io::Result<()> {
    let asked = asked(&rt)?;
    if begins(&rt, &asked, "serve_beside")? {
        serve_beside::print(&rt)?;
    }
    if begins(&rt, &asked, "session_loopback")? {
        session_loopback::print(&rt)?;
    }
    if begins(&rt, &asked, "rehearse_runs")? {
        rehearse_runs::print(&rt)?;
    }
    Ok(())
}

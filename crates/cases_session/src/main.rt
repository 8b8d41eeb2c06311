//! Cases of the session machine, of its flows and timers, and of the words of CONFIG and of a command line. A word on the command line
//! names one section. What the program has to print stands in `stdout`, worked out by hand.
#![tactic(auto)]

mod flows;
mod sessions;
mod words;

use cases_words::{asked, begins};
use std::io;

fn main(rt: HostRuntime) -> io::Result<()> {
    let asked = asked(&rt)?;
    if begins(&rt, &asked, "sessions")? {
        sessions::print(&rt)?;
    }
    if begins(&rt, &asked, "flows")? {
        flows::print(&rt)?;
    }
    if begins(&rt, &asked, "words")? {
        words::print(&rt)?;
    }
    Ok(())
}

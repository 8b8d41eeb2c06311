//! Cases of disks, streams, links and clocks in memory, and of files. A word on the command line names one section. What the program has
//! to print stands in `stdout`, worked out by hand.
#![tactic(auto)]

mod devices;
mod links;

use cases_words::{asked, begins};
use std::io;

fn main(rt: HostRuntime) -> io::Result<()> {
    let asked = asked(&rt)?;
    if begins(&rt, &asked, "devices")? {
        devices::print(&rt)?;
    }
    if begins(&rt, &asked, "links")? {
        links::print(&rt)?;
    }
    Ok(())
}

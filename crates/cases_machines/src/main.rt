//! Cases of two machines against each other and of one against peers that keep no rules, over bytes in memory. A word on the command
//! line names one section. What the program has to print stands in `stdout`, worked out by hand.
#![tactic(auto)]

mod hostile;
mod machines;

use cases_words::{asked, begins};
use std::io;

fn main(rt: HostRuntime) -> io::Result<()> {
    let asked = asked(&rt)?;
    if begins(&rt, &asked, "machines")? {
        machines::print(&rt)?;
    }
    if begins(&rt, &asked, "hostile")? {
        hostile::print(&rt)?;
    }
    Ok(())
}

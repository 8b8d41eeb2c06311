//! Cases of ends of sessions turn by turn, over journals and pipes in memory. What the program has to print stands in `stdout`,
//! worked out by hand.
#![tactic(auto)]

mod one_transport;
mod turns;

use cases_words::{asked, begins};
use std::io;

fn main(rt: HostRuntime) -> io::Result<()> {
    let asked = asked(&rt)?;
    if begins(&rt, &asked, "turns")? {
        turns::print(&rt)?;
    }
    if begins(&rt, &asked, "one_transport")? {
        one_transport::print(&rt)?;
    }
    Ok(())
}

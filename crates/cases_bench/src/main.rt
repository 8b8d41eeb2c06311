//! Measurements of messages, of senders at a gate, of turns and of datagrams, which `bench/run` compares with hand-written programs. A word on the
//! command line names the section; behind it stand its own words. What the program has to print stands in `stdout`, worked out by hand.
#![tactic(auto)]

mod bench;
mod datagrams_speed;

use cases_words::{asked, begins};
use std::io;

fn main(rt: HostRuntime) -> io::Result<()> {
    let asked = asked(&rt)?;
    if begins(&rt, &asked, "bench")? {
        bench::print(&rt)?;
    }
    if begins(&rt, &asked, "datagrams_speed")? {
        datagrams_speed::print(&rt)?;
    }
    Ok(())
}

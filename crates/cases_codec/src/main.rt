//! Cases of values, schemas, bytes and texts of messages, versions of a schema, session messages, and datagrams. Each section reads
//! its cases, a line each, and prints what they show; a word on the command line names one section. What the program has to print
//! stands in `stdout`, worked out by hand.
#![tactic(auto)]

mod codec;
mod datagrams;
mod messages;
mod schemas;
mod skew;
mod values;

use cases_words::{asked, begins};
use std::io;

fn main(rt: HostRuntime) -> io::Result<()> {
    let asked = asked(&rt)?;
    if begins(&rt, &asked, "values")? {
        values::print(&rt)?;
    }
    if begins(&rt, &asked, "schemas")? {
        schemas::print(&rt)?;
    }
    if begins(&rt, &asked, "codec")? {
        codec::print(&rt)?;
    }
    if begins(&rt, &asked, "skew")? {
        skew::print(&rt)?;
    }
    if begins(&rt, &asked, "messages")? {
        messages::print(&rt)?;
    }
    if begins(&rt, &asked, "datagrams")? {
        datagrams::print(&rt)?;
    }
    Ok(())
}

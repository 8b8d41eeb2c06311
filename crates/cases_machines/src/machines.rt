//! Cases of two session machines, the two ends of one session: for each pair of flows and of versions their connections are cut at every
//! place, and what each end settles is judged by plain lists. What it has to print stands in `stdout`, worked out by hand.

mod cuts;
mod judge;
mod line;
mod session;
mod side;

use cases_made::entries_of;
use fixp_end::Flow;
use jr_kept::Stable;
use std::alloc::{AllocError, Global};
use std::io;

/// The templates of the entries that an end sends, each of which is the entry's number.
const TEMPLATES: [u8; 10] = [1, 2, 3, 4, 5, 6, 7, 8, 9, 10];

/// How many entries there are.
const COUNT: u64 = 10;

/// The flows of one direction.
const FLOWS: [Flow; 4] = [
    Flow::Recoverable,
    Flow::Idempotent,
    Flow::Unsequenced,
    Flow::None,
];

/// The versions of an initiator and of an acceptor, of which one at least is 1.
const VERSIONS: [[u16; 2]; 3] = [[0, 1], [1, 0], [1, 1]];

/// Adds a line for each way in which the sessions of two flows are run.
fn push_lines(
    alloc: Global,
    lines: &mut String,
    initiator: Flow,
    acceptor: Flow,
    entries: &[Stable],
) -> Result<(), AllocError> {
    cuts::push_at_once(alloc, lines, initiator, acceptor, entries)?;
    lines.push_str("\n")?;
    cuts::push_by_threes(alloc, lines, initiator, acceptor, entries)?;
    for versions in VERSIONS {
        lines.push_str("\n")?;
        cuts::push_by_versions(alloc, lines, initiator, acceptor, entries, versions)?;
    }
    Ok(())
}

/// Prints the lines of two flows.
fn print_lines<R: Print + AllocGlobal>(
    rt: &R,
    initiator: Flow,
    acceptor: Flow,
    entries: &[Stable],
) -> io::Result<()> {
    let mut lines = String::new(rt.alloc());
    push_lines(rt.alloc(), &mut lines, initiator, acceptor, entries)?;
    rt.println(lines)
}

/// Prints what the section shows.
pub fn print<R: Print + AllocGlobal>(rt: &R) -> io::Result<()> {
    let entries = entries_of(rt.alloc(), &TEMPLATES)?;
    for initiator in FLOWS {
        for acceptor in FLOWS {
            print_lines(rt, initiator, acceptor, entries.as_slice())?;
        }
    }
    Ok(())
}

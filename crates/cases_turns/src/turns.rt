//! Sessions of two ends over their turns: two connections against each other over pipes in memory, with gates, journals and inboxes
//! as a session has them. Senders submit between the turns, links give and take a part or a byte at a time, and connections are cut
//! where it is drawn; the last one is not. The journals are opened again and judged by plain lists. Before them stand rows of whole turns,
//! by `turns.txt`, a long session over a link with losses, and sessions of which one end is stopped at each call of a disk; behind them each end hears what an honest peer sends in a connection with
//! one byte changed, by `tapes.txt`. What the program has to print stands in `stdout`, worked out by hand.

mod judge;
mod losses;
mod lossy;
mod narrow;
mod rows;
mod runs;
mod session;
mod stops;
mod tapes;
mod written;

use cases_words::Named;
use fixp_end::{Flow, Role};
use losses::push_losses;
use rows::push_row;
use runs::{Kind, push_sessions};
use std::alloc::{AllocError, Global};
use std::rt::Files;
use std::sync::Wait;
use std::{fs, io};
use stops::push_stopped;
use tapes::{push_heard, read_tape};

/// All flows.
const FLOWS: [Flow; 4] = [
    Flow::Recoverable,
    Flow::Idempotent,
    Flow::Unsequenced,
    Flow::None,
];

/// Adds how the sessions of two flows go: over links whose width is drawn for each turn, and over links of a byte.
fn push_flows<R: Wait>(
    rt: &R,
    alloc: Global,
    line: &mut String,
    flows: [Flow; 2],
) -> Result<(), AllocError> {
    let drawn = Kind {
        flows,
        width: 0,
        rounds: 60,
    };
    let single = Kind {
        flows,
        width: 1,
        rounds: 600,
    };
    let [client, server] = flows;
    write!(line, "{client:?} and {server:?}: ")?;
    push_sessions(alloc, line, drawn, 40, rt)?;
    line.push_str(", and of a byte at a time ")?;
    push_sessions(alloc, line, single, 4, rt)
}

/// Prints how the sessions of two flows go.
fn print_flows<R: Print + AllocGlobal + Wait>(rt: &R, flows: [Flow; 2]) -> io::Result<()> {
    let mut line = String::new(rt.alloc());
    push_flows(rt, rt.alloc(), &mut line, flows)?;
    rt.println(line)
}

/// Prints how the sessions of all pairs of flows go.
fn print_sessions<R: Print + AllocGlobal + Wait>(rt: &R) -> io::Result<()> {
    for client in FLOWS {
        for server in FLOWS {
            print_flows(rt, [client, server])?;
        }
    }
    Ok(())
}

/// Adds how an end of this role hears the tapes of the lines that begin with this word.
fn push_tapes<R: Wait>(
    rt: &R,
    alloc: Global,
    line: &mut String,
    role: Role,
    name: &str,
    lines: &str,
) -> Result<(), AllocError> {
    write!(line, "{name}: ")?;
    let mut tape = read_tape(alloc, role, name, lines)?;
    push_heard(alloc, line, &mut tape, rt)
}

/// Prints how an end of this role hears the tapes of the lines that begin with this word.
fn print_tapes<R: Print + AllocGlobal + Wait>(
    rt: &R,
    role: Role,
    name: &str,
    lines: &str,
) -> io::Result<()> {
    let mut line = String::new(rt.alloc());
    push_tapes(rt, rt.alloc(), &mut line, role, name, lines)?;
    rt.println(line)
}

/// Adds a row of whole turns, or a comment as it stands.
fn push_line<R: Wait>(
    rt: &R,
    alloc: Global,
    line: &mut String,
    named: Named<'_>,
    row: &str,
) -> Result<(), AllocError> {
    if row.starts_with("#") {
        return line.push_str(row);
    }
    push_row(alloc, line, named, row, rt)
}

/// Prints a row of whole turns.
fn print_row<R: Print + AllocGlobal + Wait>(rt: &R, named: Named<'_>, row: &str) -> io::Result<()> {
    let mut line = String::new(rt.alloc());
    push_line(rt, rt.alloc(), &mut line, named, row)?;
    rt.println(line)
}

/// Prints the rows of whole turns.
fn print_rows<R: Files + Print + AllocGlobal + Wait>(rt: &R) -> io::Result<()> {
    let table = fs::read_to_string(rt, "frames.txt")?;
    let rows = fs::read_to_string(rt, "turns.txt")?;
    for row in rows.lines() {
        print_row(rt, Named::of(table.as_str()), row)?;
    }
    Ok(())
}

/// Prints how a long session goes over a link with losses, in which the end of this role sends.
fn print_losses<R: Print + AllocGlobal + Wait>(rt: &R, role: Role) -> io::Result<()> {
    let mut line = String::new(rt.alloc());
    push_losses(rt.alloc(), &mut line, role, rt)?;
    rt.println(line)
}

/// Prints what comes of an end of this role, to which so many messages come, wherever it is stopped.
fn print_stopped<R: Print + AllocGlobal + Wait>(rt: &R, role: Role, count: u8) -> io::Result<()> {
    let mut line = String::new(rt.alloc());
    push_stopped(rt.alloc(), &mut line, role, count, rt)?;
    rt.println(line)
}

/// Prints what the section shows.
pub fn print<R: Files + Print + AllocGlobal + Wait>(rt: &R) -> io::Result<()> {
    print_rows(rt)?;
    print_losses(rt, Role::Initiator)?;
    print_losses(rt, Role::Acceptor)?;
    for role in [Role::Acceptor, Role::Initiator] {
        print_stopped(rt, role, 3)?;
        print_stopped(rt, role, 15)?;
    }
    print_sessions(rt)?;
    let lines = fs::read_to_string(rt, "tapes.txt")?;
    print_tapes(rt, Role::Acceptor, "accept", lines.as_str())?;
    print_tapes(rt, Role::Initiator, "connect", lines.as_str())
}

//! Cases of `run_session` over devices in memory: lives on the same two disks, one after another. Reads `runs.txt`, and prints how
//! each ended, the lines on OUT, what each link was sent, and the records of the journals. What it has to print stands in
//! `stdout`, worked out by hand.

mod disks;
mod lives;

use cmd_session::Role;
use disks::{Disks, disks_of};
use lives::{Life, add_life};
use std::alloc::{AllocError, Global};
use std::rt::Files;
use std::sync::Wait;
use std::thread::Threads;
use std::{fs, io};

/// Adds what a line of the cases shows: a line of disks makes them, and one of a life runs on those that stand, which come back.
fn add_line<R: Threads + Wait + Sync>(
    rt: &R,
    alloc: Global,
    text: &mut String,
    config: &str,
    line: &str,
    disks: Disks,
) -> Result<Disks, AllocError> {
    let (word, rest) = cases_words::halves(line);
    let role = match word {
        "disks" => return disks_of(alloc, rest),
        "connect" => Role::Initiator,
        "accept" => Role::Acceptor,
        _ => return Ok(disks),
    };
    let (input, tapes) = cases_words::halves(rest);
    let life = Life {
        role,
        config,
        input,
        tapes,
    };
    add_life(rt, alloc, text, life, disks)
}

/// Prints a line of the cases and what it shows; the disks that stand behind it come back.
fn print_line<R: Print + AllocGlobal + Threads + Wait + Sync>(
    rt: &R,
    config: &str,
    line: &str,
    disks: Disks,
) -> io::Result<Disks> {
    rt.println(line)?;
    let mut text = String::new(rt.alloc());
    let disks = add_line(rt, rt.alloc(), &mut text, config, line, disks)?;
    rt.print(text.as_str())?;
    Ok(disks)
}

/// Prints what each line of the file of cases shows.
fn print_cases<R: Print + AllocGlobal + Threads + Wait + Sync>(
    rt: &R,
    config: &str,
    cases: &str,
) -> io::Result<()> {
    let mut disks = disks_of(rt.alloc(), "")?;
    for line in cases.lines() {
        disks = print_line(rt, config, line, disks)?;
    }
    Ok(())
}

/// Prints what the section shows.
pub fn print<R: Files + Print + AllocGlobal + Threads + Wait + Sync>(rt: &R) -> io::Result<()> {
    let config = fs::read_to_string(rt, "config.toml")?;
    let cases = fs::read_to_string(rt, "runs.txt")?;
    print_cases(rt, config.as_str(), cases.as_str())
}

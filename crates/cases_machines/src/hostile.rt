//! One end that hears 100,000 messages of peers that keep no rules, drawn near its state: both roles, and all versions of both. What the section has to
//! print stands in `stdout`, worked out by hand: that all holds, and what came about.

mod judged;
mod peer;

use crate::hostile::judged::{Judged, Shown};
use cases_made::{ToldEnd, entries_of};
use cases_words::Chance;
use fixp_end::{EndState, Flow, Role};
use jr_kept::Stable;
use std::alloc::{AllocError, Global};
use std::io;

/// The templates of the entries that an end sends, each of which is the entry's number.
const TEMPLATES: [u8; 10] = [1, 2, 3, 4, 5, 6, 7, 8, 9, 10];

/// How many sessions there are of each kind.
const SESSIONS: u64 = 50;

/// How many messages the peer sends in each.
const MESSAGES: u64 = 500;

/// How often something has to come about to be told.
const SOME: u64 = 10;

/// A negotiated session, of which nothing else is recorded.
const RECORDED: EndState = EndState {
    negotiated: true,
    inbox_next: 1,
    peer_last: None,
    sent: 0,
    finish: None,
};

/// What a session shows of an end of this role and version.
fn session(
    alloc: Global,
    role: Role,
    version: u16,
    entries: &[Stable],
    seed: u64,
) -> Result<Shown, AllocError> {
    let flow = Flow::Recoverable;
    let driven = ToldEnd::new(alloc, role, flow, flow, RECORDED, 0, version)?;
    let answer = match role {
        Role::Initiator => 5,
        Role::Acceptor => 4,
    };
    let mut chance = Chance::of(seed);
    let mut judged = Judged::new(alloc, driven, entries, answer, (seed % 2) as u8);
    for _ in 0..MESSAGES {
        judged.step(&mut chance)?;
    }
    Ok(judged.shown)
}

/// What all sessions show of an end of this role and version.
fn sessions(
    alloc: Global,
    role: Role,
    version: u16,
    entries: &[Stable],
) -> Result<Shown, AllocError> {
    let mut all = Shown {
        held: 0,
        requests: 0,
        returns: 0,
        fault: None,
    };
    for seed in 1..=SESSIONS {
        let shown = session(alloc, role, version, entries, seed)?;
        all.held = all.held.saturating_add(shown.held);
        all.requests = all.requests.saturating_add(shown.requests);
        all.returns = all.returns.saturating_add(shown.returns);
        all.fault = all.fault.or(shown.fault);
    }
    Ok(all)
}

/// Adds a word for each thing that came about.
fn push_shown(line: &mut String, shown: Shown) -> Result<(), AllocError> {
    match shown.fault {
        Some(what) => line.push_str(what)?,
        None => line.push_str("holds")?,
    }
    if shown.held >= SOME {
        line.push_str(", messages were held")?;
    }
    if shown.requests >= SOME {
        line.push_str(", missing ones asked for")?;
    }
    if shown.returns >= SOME {
        line.push_str(", entries taken back")?;
    }
    Ok(())
}

/// What an end of this role and version shows, in words.
fn told(alloc: Global, role: Role, version: u16, entries: &[Stable]) -> Result<String, AllocError> {
    let mut line = format!(in alloc; "{role:?} of version {version}: ")?;
    let shown = sessions(alloc, role, version, entries)?;
    push_shown(&mut line, shown)?;
    Ok(line)
}

/// Prints what the section shows.
pub fn print<R: Print + AllocGlobal>(rt: &R) -> io::Result<()> {
    let alloc = rt.alloc();
    let entries = entries_of(alloc, &TEMPLATES)?;
    for role in [Role::Initiator, Role::Acceptor] {
        for version in [0, 1] {
            rt.println(told(alloc, role, version, entries.as_slice())?)?;
        }
    }
    Ok(())
}

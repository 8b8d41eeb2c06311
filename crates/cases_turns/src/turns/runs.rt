//! Sessions that are drawn, and what was wrong with the first of them with which something was.

use crate::turns::judge::{both_opened, fault};
use crate::turns::session::{Plan, Session};
use cases_words::Chance;
use fixp_end::Flow;
use std::alloc::{AllocError, Global};
use std::sync::Wait;

/// What sessions that are drawn have in common.
#[derive(Clone, Copy)]
pub struct Kind {
    /// The flows of the initiator's messages and of the acceptor's.
    pub flows: [Flow; 2],
    /// The width of the link.
    pub width: usize,
    /// Below how many rounds a connection is cut.
    pub rounds: u64,
}

/// The plan of a session of this kind.
fn plan(chance: &mut Chance, kind: Kind) -> Plan {
    let Kind {
        flows,
        width,
        rounds,
    } = kind;
    Plan {
        flows,
        senders: [1 + chance.below(4) as u8, 1 + chance.below(4) as u8],
        cuts: chance.below(5),
        rounds,
        width,
    }
}

/// What is wrong with the journals that a session leaves, if anything is.
fn journals_fault(alloc: Global, plan: Plan, session: Session) -> Option<&'static str> {
    let Some((initiator, acceptor)) = both_opened(alloc, session.close()) else {
        return Some("a journal that does not open");
    };
    let [client, server] = plan.flows;
    let [clients, servers] = plan.senders;
    fault(client, clients, &initiator, &acceptor).or(fault(server, servers, &acceptor, &initiator))
}

/// What is wrong with a session that is run by this plan, if anything is.
fn session_fault<R: Wait>(
    alloc: Global,
    plan: Plan,
    chance: Chance,
    rt: &R,
) -> Option<&'static str> {
    let Some(mut session) = Session::open(alloc, plan, chance) else {
        return Some("want of memory");
    };
    let ended = session.connect_all(alloc, rt);
    let left = journals_fault(alloc, plan, session);
    match ended {
        Ok(fault) => fault.or(left),
        Err(_) => Some("want of memory"),
    }
}

/// What is wrong with the session of this kind and this seed, if anything is.
fn seeded_fault<R: Wait>(alloc: Global, kind: Kind, seed: u64, rt: &R) -> Option<&'static str> {
    let mut chance = Chance::of(seed);
    let plan = plan(&mut chance, kind);
    session_fault(alloc, plan, chance, rt)
}

/// The first of so many sessions with which something is wrong, by its seed, and what is.
fn first_fault<R: Wait>(
    alloc: Global,
    kind: Kind,
    count: u64,
    rt: &R,
) -> Option<(u64, &'static str)> {
    for seed in 1..=count {
        if let Some(what) = seeded_fault(alloc, kind, seed, rt) {
            return Some((seed, what));
        }
    }
    None
}

/// Adds how so many sessions of this kind went: from the seed 1 on.
///
/// # Errors
/// Want of memory for the words.
pub fn push_sessions<R: Wait>(
    alloc: Global,
    line: &mut String,
    kind: Kind,
    count: u64,
    rt: &R,
) -> Result<(), AllocError> {
    match first_fault(alloc, kind, count, rt) {
        Some((seed, what)) => write!(line, "{what} with seed {seed}"),
        None => write!(line, "{count} hold"),
    }
}

//! The rules of a session that a client broke, in words.

use crate::filled::{Filled, plain, with_one, with_two};
use fixp_shake::{Phase, Violation};
use std::alloc::AllocError;

/// A message by its template id; 0 stands for an application message.
pub fn message_name(template: u16) -> &'static str {
    match template {
        0 => "an application message",
        1 => "Negotiate",
        2 => "NegotiationResponse",
        3 => "NegotiationReject",
        4 => "Establish",
        5 => "EstablishmentAck",
        6 => "EstablishmentReject",
        7 => "Sequence",
        8 => "UnsequencedHeartbeat",
        9 => "RetransmitRequest",
        10 => "Retransmission",
        11 => "RetransmitReject",
        12 => "Applied",
        13 => "NotApplied",
        14 => "FinishedSending",
        15 => "FinishedReceiving",
        _ => "Terminate",
    }
}

/// How far the connection had come.
fn phase_name(phase: Phase) -> &'static str {
    match phase {
        Phase::Idle => "before the session is established",
        Phase::Negotiating => "while the answer to Negotiate is awaited",
        Phase::Establishing => "while the answer to Establish is awaited",
        Phase::Established => "in an established session",
        Phase::Closing => "after the session's end was told",
        Phase::Ended => "after the session's end",
    }
}

/// A broken rule: the name of the message that breaks it, if it is told, and what is said of it.
#[derive(Clone, Copy)]
struct Rule {
    name: &'static str,
    what: Filled,
    /// How far the connection had come, if it is told.
    phase: &'static str,
}

const fn unnamed(what: Filled) -> Rule {
    Rule {
        name: "",
        what,
        phase: "",
    }
}

fn of_message(template: u16, words: &'static str) -> Rule {
    Rule {
        name: message_name(template),
        what: plain(words),
        phase: "",
    }
}

/// What is wrong with a retransmission: 0 as the number awaited stands for none that was asked for, and 0 as the number that
/// came for none.
fn retransmission_fault(expected: u64, found: u64) -> Filled {
    match (expected as u128, found as u128) {
        (0, 0) => plain("a retransmission is refused that was not asked for"),
        (0, found) => with_one("a retransmission gives #, which was not asked for", found),
        (expected, 0) => with_one("a retransmission ends where # is awaited", expected),
        (expected, found) => with_two(
            "a retransmission gives # where # is awaited",
            found,
            expected,
        ),
    }
}

/// What is wrong with a message that its phase does not await.
fn misplaced(template: u16, phase: Phase) -> Rule {
    match (template, phase) {
        (9, Phase::Established) => of_message(9, " comes while an earlier one is served"),
        (15, Phase::Established) => of_message(15, " comes, and no FinishedSending awaits it"),
        (template, phase) => Rule {
            name: message_name(template),
            what: plain(" may not come "),
            phase: phase_name(phase),
        },
    }
}

/// Adds the rule that the frame at this place of the input breaks, with its numbers.
///
/// # Errors
/// Want of memory.
pub fn push_broken_rule(
    line: &mut String,
    at: u64,
    violation: Violation,
) -> Result<(), AllocError> {
    write!(line, "frame at byte {at}: ")?;
    push_rule(line, rule_of(violation))
}

fn push_rule(line: &mut String, rule: Rule) -> Result<(), AllocError> {
    line.push_str(rule.name)?;
    rule.what.push(line)?;
    line.push_str(rule.phase)
}

/// A broken rule.
fn rule_of(violation: Violation) -> Rule {
    match violation {
        Violation::NotInPhase { template, phase } => misplaced(template, phase),
        Violation::OtherSession { template } => {
            of_message(template, " names another session than CONFIG")
        }
        Violation::MissingNext { template } => {
            of_message(template, " gives no number, and the flow has numbers")
        }
        Violation::FlowNone { template } => {
            of_message(template, " comes on a flow that CONFIG says is none")
        }
        other => unnamed(rule_on_numbers(other)),
    }
}

/// A broken rule that names no message.
fn rule_on_numbers(violation: Violation) -> Filled {
    match violation {
        Violation::UnknownTemplate { id } => with_one(
            "template # is no session message's; they have 1 to 16",
            id as u128,
        ),
        Violation::WentBack {
            announced,
            expected,
        } => with_two(
            "number # is announced where # is the least",
            announced as u128,
            expected as u128,
        ),
        Violation::NumberTooLarge { announced } => with_one(
            "number # is above the limit of messages that this run takes",
            announced as u128,
        ),
        Violation::BadRetransmission { expected, found } => retransmission_fault(expected, found),
        Violation::AfterFinish { last, found } => with_two(
            "number # comes after the flow was finished with #",
            found as u128,
            last as u128,
        ),
        Violation::Silent { last, now } => with_two(
            "nothing came from # ms to # ms, three intervals long",
            last as u128,
            now as u128,
        ),
        Violation::HandshakeLate { start, now } => with_two(
            "the handshake begun at # ms is not done at # ms",
            start as u128,
            now as u128,
        ),
        _ => plain("it is malformed"),
    }
}

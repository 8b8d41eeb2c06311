//! The numbers of a session's messages and rules, in words.

use std::alloc::AllocError;
use uuid::Uuid;

/// A flow by its code.
pub(crate) fn flow_name(code: u8) -> &'static str {
    match code {
        1 => "recoverable",
        2 => "idempotent",
        3 => "unsequenced",
        4 => "none",
        _ => "a flow that has no name",
    }
}

/// Why a peer terminates, by its code.
pub(crate) fn terminate_name(code: u64) -> &'static str {
    match code {
        1 => "finished",
        2 => "unspecified error",
        3 => "re-request out of bounds",
        4 => "re-request in progress",
        _ => "a code that has no name",
    }
}

/// The rule that a peer broke, by its number.
pub(crate) fn rule_name(number: u64) -> &'static str {
    match number {
        1 => "a malformed frame",
        2 => "an unknown session message",
        3 => "a message out of phase",
        4 => "another session's identifier, or another flow",
        5 => "a number below the one expected",
        6 => "a number is missing",
        7 => "a number above the limit",
        8 => "a retransmission that does not match its request",
        9 => "a message after the finish",
        10 => "a message on a flow that CONFIG says is none",
        11 => "nothing came for three intervals",
        12 => "the handshake took too long",
        _ => "a rule that has no name",
    }
}

/// Adds the identifier of a session, as UUIDs are written.
pub(crate) fn push_session(line: &mut String, session: &[u8; 16]) -> Result<(), AllocError> {
    let session = Uuid::from_bytes(*session);
    write!(line, "{session}")
}

/// Adds a number of messages.
pub(crate) fn push_messages(line: &mut String, count: u64) -> Result<(), AllocError> {
    if count == 1 {
        line.push_str("1 message")
    } else {
        write!(line, "{count} messages")
    }
}

/// Adds the next number of one direction; a flow without numbers has none.
pub(crate) fn push_next(line: &mut String, next: Option<u64>) -> Result<(), AllocError> {
    match next {
        Some(next) => write!(line, "{next}"),
        None => line.push_str("none"),
    }
}

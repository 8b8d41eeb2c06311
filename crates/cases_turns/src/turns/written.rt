//! What an end wrote in a turn, in words: the session messages, and how many application messages come one behind another.

use cases_made::{is_application, session_in};
use fixp_msgs::SessionMsg;
use sofh_frame::{OwnedFrame, split_pieces};
use std::alloc::{AllocError, Global};

/// The name of a session message, and its numbers.
fn parts_of(said: &SessionMsg<'_>) -> (&'static str, Option<u64>, Option<u32>) {
    match said {
        SessionMsg::Negotiate(_) => ("Negotiate", None, None),
        SessionMsg::NegotiationResponse(_) => ("NegotiationResponse", None, None),
        SessionMsg::Establish(_) => ("Establish", None, None),
        SessionMsg::EstablishmentAck(_) => ("EstablishmentAck", None, None),
        SessionMsg::Sequence(m) => ("Sequence", Some(m.next_seq), None),
        SessionMsg::RetransmitRequest(m) => ("RetransmitRequest", Some(m.from_seq), Some(m.count)),
        SessionMsg::Retransmission(m) => ("Retransmission", Some(m.next_seq), Some(m.count)),
        SessionMsg::Terminate(m) => ("Terminate", Some(u64::from(m.code)), None),
        _ => ("another", None, None),
    }
}

/// Adds a session message in a word.
fn push_session(line: &mut String, said: &SessionMsg<'_>) -> Result<(), AllocError> {
    match parts_of(said) {
        (name, Some(number), Some(count)) => write!(line, " {name}({number}, {count})"),
        (name, Some(number), None) => write!(line, " {name}({number})"),
        (name, None, _) => write!(line, " {name}"),
    }
}

/// Adds how many application messages there are, if there are some.
fn push_count(line: &mut String, messages: u64) -> Result<(), AllocError> {
    if messages == 0 {
        return Ok(());
    }
    write!(line, " {messages} messages")
}

/// Adds frames.
fn push_frames(line: &mut String, frames: &[OwnedFrame]) -> Result<(), AllocError> {
    let mut messages = 0u64;
    for frame in frames {
        if is_application(frame.order, frame.message.as_slice()) {
            messages = messages.saturating_add(1);
        }
        if let Some(said) = session_in(frame.order, frame.message.as_slice()) {
            push_count(line, messages)?;
            push_session(line, &said)?;
            messages = 0;
        }
    }
    push_count(line, messages)
}

/// Adds the frames of bytes that are whole frames.
///
/// # Errors
/// Want of memory.
pub fn push_written(alloc: Global, line: &mut String, bytes: &[u8]) -> Result<(), AllocError> {
    let split = split_pieces(alloc, &[bytes])?;
    push_frames(line, split.frames.as_slice())
}

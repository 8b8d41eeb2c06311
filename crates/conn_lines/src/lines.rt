//! What a peer did not apply, and ends of connections.

ghost use Rattle.std.specs.Prelude.{◌≡◌, ◌++◌, codes, OnOk};
ghost use Rattle.conn_lines.specs.Lines.{connection_line, ending_words, not_applied_line, number_of, words_of};

use crate::close::Close;
use fixp_replies::Ending;
use fixp_shake::Violation;
use std::alloc::AllocError;
use text_words::push_number;

/// Adds the line of messages that the peer did not apply, so many from this number on.
///
/// # Errors
/// Want of memory.
pub fn push_not_applied_line(lines: &mut Vec<u8>, from: u64, count: u64) -> Result<(), AllocError>
    ensures { OnOk result (lines.new.items ≡ lines.old.items ++ not_applied_line from count) }
{
    push_number(lines, b"notapplied ", from)?;
    push_number(lines, b" ", count)?;
    lines.extend_from_slice(b"\n")?;
    Ok(())
}

/// The number of a rule that was broken, 1 to 12.
fn number_of(violation: Violation) -> u64
    ensures { result ≡ number_of violation }
{
    match violation {
        Violation::BadFrame { .. } => 1,
        Violation::UnknownTemplate { .. } => 2,
        Violation::NotInPhase { .. } => 3,
        Violation::OtherSession { .. } => 4,
        Violation::WentBack { .. } => 5,
        Violation::MissingNext { .. } => 6,
        Violation::NumberTooLarge { .. } => 7,
        Violation::BadRetransmission { .. } => 8,
        Violation::AfterFinish { .. } => 9,
        Violation::FlowNone { .. } => 10,
        Violation::Silent { .. } => 11,
        Violation::HandshakeLate { .. } => 12,
    }
}

/// Adds how the session ended a connection.
fn push_ending(lines: &mut Vec<u8>, ending: Ending) -> Result<(), AllocError>
    ensures { OnOk result (lines.new.items ≡ lines.old.items ++ ending_words ending) }
{
    match ending {
        Ending::Finished => lines.extend_from_slice(b"finished"),
        Ending::PeerTerminated { code } => push_number(lines, b"terminated ", u64::from(code)),
        Ending::LinkEnded => lines.extend_from_slice(b"link-ended"),
        Ending::Rejected { template, code } => {
            push_number(lines, b"rejected ", u64::from(template))?;
            push_number(lines, b" ", u64::from(code))
        }
        Ending::Violation(violation) => push_number(lines, b"violation ", number_of(violation)),
    }
}

/// Adds how a connection came to its end, behind a blank.
fn push_words(lines: &mut Vec<u8>, close: Close) -> Result<(), AllocError>
    ensures { OnOk result (lines.new.items ≡ lines.old.items ++ (codes " " ++ words_of close)) }
{
    lines.extend_from_slice(b" ")?;
    match close {
        Close::Ended(ending) => push_ending(lines, ending),
        Close::LinkFault => lines.extend_from_slice(b"link-fault"),
    }
}

/// Adds the line of the end of the connection of this number, from 1 on.
///
/// # Errors
/// Want of memory.
pub fn push_connection_line(
    lines: &mut Vec<u8>,
    number: u64,
    close: Close,
) -> Result<(), AllocError>
    ensures { OnOk result (lines.new.items ≡ lines.old.items ++ connection_line number close) }
{
    push_number(lines, b"connection ", number)?;
    push_words(lines, close)?;
    lines.extend_from_slice(b"\n")?;
    Ok(())
}

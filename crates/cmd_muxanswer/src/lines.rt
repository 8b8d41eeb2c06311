//! The lines of several sessions: each is a line of one of them behind its number.

ghost use Rattle.std.specs.Prelude.{◌≡◌, ◌++◌, Some, OnOk};
ghost use Rattle.fixp_replies.specs.declared.act.Ending.TheVariants.{Violation as Broken};
ghost use Rattle.conn_lines.specs.Lines.{number_of};
ghost use Rattle.cmd_muxanswer.specs.Lines.{bytes_of_lines, lines_with, violation_text};

use fixp_end::Ending;
use fixp_shake::Violation;
use std::alloc::AllocError;
use text_words::push_decimal;

/// Adds a line of the session of this number; none where its text is empty.
///
/// # Errors
/// Want of memory.
pub(crate) fn push_text(lines: &mut Vec<u8>, number: u64, text: &[u8]) -> Result<(), AllocError>
    ensures { OnOk result (lines.new.items ≡ lines.old.items ++ bytes_of_lines (lines_with number text.now)) }
{
    if text.is_empty() {
        return Ok(());
    }
    push_decimal(lines, number)?;
    lines.extend_from_slice(b" ")?;
    lines.extend_from_slice(text)
}

/// The number of a rule that was broken, 1 to 12.
fn number_of(violation: Violation) -> u64
    ensures { result ≡ number_of violation }
{
    match violation {
        Violation::BadFrame { .. } => 1,
        Violation::UnknownTemplate { .. } => 2,
        Violation::NotInPhase { .. } => 3,
        Violation::OtherSession { .. } => 4,
        Violation::WentBack { .. } => 5,
        Violation::MissingNext { .. } => 6,
        Violation::NumberTooLarge { .. } => 7,
        Violation::BadRetransmission { .. } => 8,
        Violation::AfterFinish { .. } => 9,
        Violation::FlowNone { .. } => 10,
        Violation::Silent { .. } => 11,
        Violation::HandshakeLate { .. } => 12,
    }
}

/// Adds the line of a rule that the session of this number broke.
///
/// # Errors
/// Want of memory.
fn push_broken(lines: &mut Vec<u8>, number: u64, violation: Violation) -> Result<(), AllocError>
    ensures { OnOk result (lines.new.items ≡ lines.old.items ++ bytes_of_lines (lines_with number (violation_text (Some (Broken violation))))) }
{
    push_decimal(lines, number)?;
    lines.extend_from_slice(b" violation ")?;
    push_decimal(lines, number_of(violation))?;
    lines.extend_from_slice(b"\n")?;
    Ok(())
}

/// Adds the line of a rule that the session of this number broke; none where its connection goes on, or ended otherwise.
///
/// # Errors
/// Want of memory.
pub(crate) fn push_violation(
    lines: &mut Vec<u8>,
    number: u64,
    ending: Option<Ending>,
) -> Result<(), AllocError>
    ensures { OnOk result (lines.new.items ≡ lines.old.items ++ bytes_of_lines (lines_with number (violation_text ending))) }
{
    match ending {
        Some(Ending::Violation(violation)) => push_broken(lines, number, violation),
        _ => Ok(()),
    }
}

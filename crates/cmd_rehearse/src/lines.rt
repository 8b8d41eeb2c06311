//! What both ends hold, in lines.

ghost use Rattle.std.specs.Prelude.{◌≡◌, ◌≤◌, [], ◌++◌, codes, decimal, length, IfOk, OnOk};
ghost use Rattle.cmd_rehearse.specs.Lines.{end_lines, sender_lines, summary_lines};

use gw_rehearse::EndSummary;
use std::alloc::{AllocError, Global};
use text_words::push_number;

/// Adds a word, another behind it, and a number.
fn push_numbered(
    lines: &mut Vec<u8>,
    end: &[u8],
    word: &[u8],
    number: u64,
) -> Result<(), AllocError>
    ensures { OnOk result (lines.new.items ≡ lines.old.items ++ ((end.now ++ word.now) ++ decimal number)) }
{
    lines.extend_from_slice(end)?;
    push_number(lines, word, number)
}

/// Adds a line for each number of entries.
fn push_senders(lines: &mut Vec<u8>, end: &[u8], entries: &[u64]) -> Result<(), AllocError>
    requires few { length entries.now ≤ 16 }
    ensures { OnOk result (lines.new.items ≡ lines.old.items ++ sender_lines end.now 1 entries.now) }
{
    let mut sender = 1u64;
    for count in entries {
        push_numbered(lines, end, b" sender ", sender)?;
        push_number(lines, b" ", *count)?;
        lines.extend_from_slice(b"\n")?;
        sender += 1;
    }
    Ok(())
}

/// Adds the lines of an end.
fn push_end(lines: &mut Vec<u8>, end: &[u8], summary: &EndSummary) -> Result<(), AllocError>
    requires few { length summary.now.entries ≤ 16 }
    ensures { OnOk result (lines.new.items ≡ lines.old.items ++ end_lines end.now summary.now) }
{
    push_senders(lines, end, summary.entries.as_slice())?;
    push_numbered(lines, end, b" delivered ", summary.delivered)?;
    push_number(lines, b" skipped ", summary.skipped)?;
    lines.extend_from_slice(b"\n")
}

/// The lines of both ends.
///
/// # Errors
/// Want of memory.
pub(crate) fn summary_lines(
    alloc: Global,
    initiator: &EndSummary,
    acceptor: &EndSummary,
) -> Result<Vec<u8>, AllocError>
    requires initiator { length initiator.now.entries ≤ 16 }
    requires acceptor { length acceptor.now.entries ≤ 16 }
    ensures { IfOk result (λ lines. lines.items ≡ summary_lines initiator.now acceptor.now) }
{
    let mut lines = Vec::new(alloc);
    push_end(&mut lines, b"initiator", initiator)?;
    push_end(&mut lines, b"acceptor", acceptor)?;
    lines.extend_from_slice(b"finished\n")?;
    Ok(lines)
}

//! What a receiver answers, in lines.

ghost use Rattle.std.specs.Prelude.{◌≡◌, ◌++◌, codes, OnOk};
ghost use Rattle.cmd_datagram.specs.Lines.{ask_line, number_line, range_line};
ghost use Rattle.cmd_datagram.specs.Delivered.{seen_lines};

use fixp_datagram::DgSeen;
use fixp_msgs::Range;
use std::alloc::AllocError;
use text_words::push_number;

/// Adds a word, a number and the line's end.
pub(crate) fn push_numbered(lines: &mut Vec<u8>, word: &[u8], number: u64) -> Result<(), AllocError>
    ensures { OnOk result (lines.new.items ≡ lines.old.items ++ number_line word.now number) }
{
    push_number(lines, word, number)?;
    lines.extend_from_slice(b"\n")
}

/// Adds a word, a range and the line's end.
pub(crate) fn push_range(lines: &mut Vec<u8>, word: &[u8], range: Range) -> Result<(), AllocError>
    ensures { OnOk result (lines.new.items ≡ lines.old.items ++ range_line word.now range) }
{
    push_number(lines, word, range.from)?;
    push_number(lines, b" ", range.count)?;
    lines.extend_from_slice(b"\n")
}

/// Adds the line of a message, if it has one.
pub(crate) fn push_seen(lines: &mut Vec<u8>, seen: DgSeen) -> Result<(), AllocError>
    ensures { OnOk result (lines.new.items ≡ lines.old.items ++ seen_lines seen) }
{
    match seen {
        DgSeen::Deliver(number) => push_numbered(lines, b"deliver ", number),
        DgSeen::Late(number) => push_numbered(lines, b"late ", number),
        DgSeen::Gap(_) | DgSeen::TooLarge(_) => Ok(()),
    }
}

/// Adds the line of what is to be asked for, if there is something.
pub(crate) fn push_ask(lines: &mut Vec<u8>, ask: Option<Range>) -> Result<(), AllocError>
    ensures { OnOk result (lines.new.items ≡ lines.old.items ++ ask_line ask) }
{
    match ask {
        Some(range) => push_range(lines, b"ask ", range),
        None => Ok(()),
    }
}

//! The first line of a frame: where it stands, and the number that it implies.

ghost use Rattle.std.specs.Prelude.{◌≡◌, ◌++◌, ℕ, Option, option_to_list, OnOk};
ghost use Rattle.cmd_dump.specs.Frames.{head_line, implied_words};

use std::alloc::AllocError;
use text_words::push_number;

/// Where a frame stands.
#[derive(Clone, Copy)]
pub struct Head {
    /// Its number, from 1.
    pub number: u64,
    /// Its place in the input, in bytes from 0.
    pub place: u64,
    /// Its size, in bytes.
    pub size: u64,
}

/// Adds the number that a frame implies.
fn push_implied(lines: &mut Vec<u8>, implied: Option<u64>) -> Result<(), AllocError>
    ensures { OnOk result (lines.new.items ≡ lines.old.items ++ implied_words (option_to_list implied)) }
{
    match implied {
        Some(number) => push_number(lines, b" number ", number),
        None => Ok(()),
    }
}

/// Adds the first line of a frame.
///
/// # Errors
/// Want of memory.
pub fn push_head(lines: &mut Vec<u8>, head: Head, implied: Option<u64>) -> Result<(), AllocError>
    ensures { OnOk result (lines.new.items ≡ lines.old.items ++ head_line head.number head.place head.size (option_to_list implied)) }
{
    push_number(lines, b"frame ", head.number)?;
    push_number(lines, b" at ", head.place)?;
    push_number(lines, b" size ", head.size)?;
    push_implied(lines, implied)?;
    lines.extend_from_slice(b"\n")
}

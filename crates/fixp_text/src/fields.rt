//! One field as a line.

ghost use Rattle.std.specs.Prelude.{◌≡◌, ◌≤◌, ◌^◌, ◌++◌, codes, decimal, length, OnOk};
ghost use Rattle.fixp_text.specs.Lines.{data_text, expected_text, field_line, group_text, identifier_text, named_text, optional_text, timestamp_text, word_text};

use fixp_msgs::Expected;
use std::alloc::AllocError;
use text_dates::push_moment;
use text_words::{push_decimal, push_hex};

/// Adds a name, and what stands before the value.
fn push_name(lines: &mut Vec<u8>, name: &[u8]) -> Result<(), AllocError>
    ensures { OnOk result (lines.new.items ≡ lines.old.items ++ name.now ++ codes " = ") }
{
    lines.extend_from_slice(name)?;
    lines.extend_from_slice(b" = ")
}

/// Adds a number.
#[tactic(auto, unfolding(crate::specs::Lines::field_line))]
pub fn push_number(lines: &mut Vec<u8>, name: &[u8], number: u64) -> Result<(), AllocError>
    ensures { OnOk result (lines.new.items ≡ lines.old.items ++ field_line name.now (decimal number)) }
{
    push_name(lines, name)?;
    push_decimal(lines, number)?;
    lines.extend_from_slice(b"\n")
}

/// Adds bytes in hexadecimal, and a hyphen.
#[tactic(auto, unfolding(crate::specs::Lines::group_text))]
fn push_group(lines: &mut Vec<u8>, bytes: &[u8]) -> Result<(), AllocError>
    requires { length bytes.now ≤ 2 ^ 20 }
    ensures { OnOk result (lines.new.items ≡ lines.old.items ++ group_text bytes.now) }
{
    push_hex(lines, bytes)?;
    lines.extend_from_slice(b"-")
}

/// Adds the identifier of a session, as UUIDs are written.
#[tactic(auto, unfolding(crate::specs::Lines::identifier_text))]
fn push_identifier_text(lines: &mut Vec<u8>, id: &[u8; 16]) -> Result<(), AllocError>
    ensures { OnOk result (lines.new.items ≡ lines.old.items ++ identifier_text id.now) }
{
    push_group(lines, &id[0..4])?;
    push_group(lines, &id[4..6])?;
    push_group(lines, &id[6..8])?;
    push_group(lines, &id[8..10])?;
    push_hex(lines, &id[10..16])
}

/// Adds the identifier of a session.
#[tactic(auto, unfolding(crate::specs::Lines::field_line))]
pub fn push_identifier(lines: &mut Vec<u8>, id: &[u8; 16]) -> Result<(), AllocError>
    ensures { OnOk result (lines.new.items ≡ lines.old.items ++ field_line (codes "SessionId") (identifier_text id.now)) }
{
    push_name(lines, b"SessionId")?;
    push_identifier_text(lines, id)?;
    lines.extend_from_slice(b"\n")
}

/// Adds a moment, in nanoseconds since 1970.
#[tactic(auto, unfolding(crate::specs::Lines::field_line, crate::specs::Lines::timestamp_text))]
pub fn push_timestamp(lines: &mut Vec<u8>, name: &[u8], timestamp: u64) -> Result<(), AllocError>
    ensures { OnOk result (lines.new.items ≡ lines.old.items ++ field_line name.now (timestamp_text timestamp)) }
{
    push_name(lines, name)?;
    push_decimal(lines, timestamp)?;
    lines.extend_from_slice(b" ")?;
    push_moment(lines, timestamp)?;
    lines.extend_from_slice(b"\n")
}

/// Adds what a number is called, behind a blank, if it has a name.
fn push_word(lines: &mut Vec<u8>, word: &[u8]) -> Result<(), AllocError>
    ensures { OnOk result (lines.new.items ≡ lines.old.items ++ word_text word.now) }
{
    if word.is_empty() {
        return Ok(());
    }
    lines.extend_from_slice(b" ")?;
    lines.extend_from_slice(word)
}

/// Adds a number and its name.
#[tactic(auto, unfolding(crate::specs::Lines::field_line, crate::specs::Lines::named_text))]
pub fn push_named(
    lines: &mut Vec<u8>,
    name: &[u8],
    word: &[u8],
    number: u8,
) -> Result<(), AllocError>
    ensures { OnOk result (lines.new.items ≡ lines.old.items ++ field_line name.now (named_text word.now number)) }
{
    push_name(lines, name)?;
    push_decimal(lines, u64::from(number))?;
    push_word(lines, word)?;
    lines.extend_from_slice(b"\n")
}

/// Adds free bytes.
#[tactic(auto, unfolding(crate::specs::Lines::field_line, crate::specs::Lines::data_text))]
pub fn push_data(lines: &mut Vec<u8>, name: &[u8], bytes: &[u8]) -> Result<(), AllocError>
    requires { length bytes.now ≤ 2 ^ 20 }
    ensures { OnOk result (lines.new.items ≡ lines.old.items ++ field_line name.now (data_text bytes.now)) }
{
    push_name(lines, name)?;
    lines.extend_from_slice(b"x")?;
    push_hex(lines, bytes)?;
    lines.extend_from_slice(b"\n")
}

/// Adds a number that may be missing.
#[tactic(auto, unfolding(crate::specs::Lines::optional_text))]
fn push_optional_text(lines: &mut Vec<u8>, number: Option<u64>) -> Result<(), AllocError>
    ensures { OnOk result (lines.new.items ≡ lines.old.items ++ optional_text number) }
{
    match number {
        Some(number) => push_decimal(lines, number),
        None => lines.extend_from_slice(b"null"),
    }
}

/// Adds a number that may be missing.
#[tactic(auto, unfolding(crate::specs::Lines::field_line))]
pub fn push_optional(
    lines: &mut Vec<u8>,
    name: &[u8],
    number: Option<u64>,
) -> Result<(), AllocError>
    ensures { OnOk result (lines.new.items ≡ lines.old.items ++ field_line name.now (optional_text number)) }
{
    push_name(lines, name)?;
    push_optional_text(lines, number)?;
    lines.extend_from_slice(b"\n")
}

/// Adds a number that is expected.
#[tactic(auto, unfolding(crate::specs::Lines::expected_text))]
fn push_expected_text(lines: &mut Vec<u8>, expected: Expected) -> Result<(), AllocError>
    ensures { OnOk result (lines.new.items ≡ lines.old.items ++ expected_text expected) }
{
    match expected {
        Expected::Absent => lines.extend_from_slice(b"absent"),
        Expected::Null => lines.extend_from_slice(b"null"),
        Expected::Number(number) => push_decimal(lines, number),
    }
}

/// Adds the number that the writer of a handshake's message expects.
#[tactic(auto, unfolding(crate::specs::Lines::field_line))]
pub fn push_expected(lines: &mut Vec<u8>, expected: Expected) -> Result<(), AllocError>
    ensures { OnOk result (lines.new.items ≡ lines.old.items ++ field_line (codes "ExpectedNextSeqNo") (expected_text expected)) }
{
    push_name(lines, b"ExpectedNextSeqNo")?;
    push_expected_text(lines, expected)?;
    lines.extend_from_slice(b"\n")
}

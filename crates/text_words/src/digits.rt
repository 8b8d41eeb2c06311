//! Numbers and bytes as the digits of a line of text. Hexadecimal comes from `hex`, and decimal from `itoa`.

ghost use Rattle.std.specs.Prelude.{◌≡◌, ◌≤◌, ◌^◌, ◌++◌, length, decimal, OnOk};
ghost use Rattle.hex.specs.Hex.{encode_lower};

use itoa::Buffer;
use std::alloc::AllocError;

/// Adds bytes in lower-case hexadecimal.
///
/// # Errors
/// Want of memory.
pub fn push_hex(lines: &mut Vec<u8>, bytes: &[u8]) -> Result<(), AllocError>
    requires { length bytes.now ≤ 2 ^ 20 }
    ensures { OnOk result (lines.new.items ≡ lines.old.items ++ encode_lower bytes.now) }
{
    let start = lines.len();
    lines.resize(start + 2 * bytes.len(), 0)?;
    let _ = hex::encode_to_slice(bytes, &mut lines[start..]);
    Ok(())
}

/// Adds a number in decimal.
///
/// # Errors
/// Want of memory.
pub fn push_decimal(lines: &mut Vec<u8>, number: u64) -> Result<(), AllocError>
    ensures { OnOk result (lines.new.items ≡ lines.old.items ++ decimal number) }
{
    let mut digits = Buffer::new();
    lines.extend_from_slice(digits.format(number).as_bytes())
}

/// Adds a word and the number behind it, in decimal.
///
/// # Errors
/// Want of memory.
pub fn push_number(lines: &mut Vec<u8>, word: &[u8], number: u64) -> Result<(), AllocError>
    ensures { OnOk result (lines.new.items ≡ lines.old.items ++ (word.now ++ decimal number)) }
{
    lines.extend_from_slice(word)?;
    push_decimal(lines, number)
}

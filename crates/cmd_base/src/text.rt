//! Reading a text from a source, up to a greatest length and one byte more.

ghost use Rattle.std.specs.Prelude.{◌≡◌, ℕ, ◌+◌, ◌-◌, ◌<◌, ◌≤◌, ◌^◌, List, ◌++◌, length, IfOk, OnOk, OnErr, IsErrOf};
ghost use Rattle.std.specs.Io.KnownBytes.{Consumes, IsAtEnd};
ghost use Rattle.gw_outside.specs.Faults.{HasRisen};
ghost use Rattle.cmd_base.specs.Texts.{ReadsWithin};

use gw_outside::Source;
use std::alloc::{AllocError, Global};

/// The most bytes of a text in INPUT.
pub const INPUT_LIMIT: usize = 1 << 26;

/// How many bytes a pull asks for.
const PIECE: usize = 32_768;

/// Why no text was read.
#[derive(Clone, Copy)]
pub enum TextFault {
    /// The source failed.
    Source,
    /// Want of memory.
    Memory,
}

/// Adds the next bytes of the source, and tells how many: none at its end.
fn add_piece<S: Source>(
    source: &mut S,
    text: &mut Vec<u8>,
    limit: usize,
) -> Result<usize, TextFault>
    requires room { length text.old.items ≤ limit }
    requires small { limit < 2 ^ 32 }
    ensures added { IfOk result (λ count. (bytes : List ℕ) × (text.new.items ≡ text.old.items ++ bytes) × (length bytes ≡ count) × Consumes (S.left source.old) (S.left source.new) bytes) }
    ensures end { IfOk result (λ count. count ≡ 0 → IsAtEnd (S.left source.new)) }
    ensures most { OnOk result (length text.new.items ≤ limit + 1) }
    ensures kept { OnErr result (ReadsWithin (S.left source.old) (S.left source.new) ((limit + 1) - length text.old.items)) }
    ensures counted { S.faults source.old ≤ S.faults source.new }
    ensures fault { IsErrOf result TextFault.Source → HasRisen (S.faults source.old) (S.faults source.new) }
{
    let mut piece = [0; PIECE];
    let wanted = PIECE.min(limit + 1 - text.len());
    let Ok(count) = source.pull(&mut piece[..wanted]) else {
        return Err(TextFault::Source);
    };
    match text.extend_from_slice(&piece[..count]) {
        Ok(()) => Ok(count),
        Err(_) => Err(TextFault::Memory),
    }
}

/// Reads a source to its end, or one byte past the greatest text, which has so many bytes.
///
/// # Errors
/// `Source` where the source failed, and `Memory`.
pub fn read_text<S: Source>(
    alloc: Global,
    source: &mut S,
    limit: usize,
) -> Result<Vec<u8>, TextFault>
    requires small { limit < 2 ^ 32 }
    ensures text { IfOk result (λ text. Consumes (S.left source.old) (S.left source.new) text.items) }
    ensures within { ReadsWithin (S.left source.old) (S.left source.new) (limit + 1) }
    ensures whole { IfOk result (λ text. length text.items ≤ limit → IsAtEnd (S.left source.new)) }
    ensures most { IfOk result (λ text. length text.items ≤ limit + 1) }
    ensures counted { S.faults source.old ≤ S.faults source.new }
    ensures fault { IsErrOf result TextFault.Source → HasRisen (S.faults source.old) (S.faults source.new) }
{
    let mut text = Vec::new(alloc);
    while text.len() <= limit {
        if add_piece(source, &mut text, limit)? == 0 {
            return Ok(text);
        }
    }
    Ok(text)
}

//! Whether a line tells of an applied message.

ghost use Rattle.std.specs.Prelude.{◌≡◌, ◌↔◌, ℕ, ◌≤◌, ◌^◌, List, [], ◌∷◌, ◌++◌, codes, length, Ok, IfOk, IfSome, IfNone, IsTrue};
ghost use Rattle.hex.specs.Hex.{decode_of};
ghost use Rattle.conn_lines.specs.Lines.{deliver_line};
ghost use Rattle.conn_tail.specs.Tails.{IsDeliver, TellsNothing};

use conn_lines::push_deliver_line;
use hex::FromHexError;
use std::alloc::{AllocError, Global};
use text_words::number_before;

/// The most bytes of a payload.
const LONGEST_PAYLOAD: usize = 16_386;

/// What stands behind the first word of a line that tells of an applied message.
fn behind_word(line: &[u8]) -> Option<&[u8]>
    ensures found { IfSome result (λ behind. line.now ≡ codes "deliver " ++ behind.now) }
    ensures none { IfNone result ((behind : List ℕ) → line.now ≡ codes "deliver " ++ behind → ⊥) }
{
    line.strip_prefix(b"deliver ")
}

/// The bytes that digits spell, where these are the payload of a message.
fn payload_of(alloc: Global, digits: &[u8]) -> Result<Option<Vec<u8>>, AllocError>
    ensures short { IfOk result (λ o. IfSome o (λ bytes. length bytes.items ≤ 16386)) }
    ensures found { IfOk result (λ o. IfSome o (λ bytes. decode_of digits.now ≡ Ok bytes.items)) }
    ensures none { IfOk result (λ o. IfNone o ((bytes : List ℕ) → length bytes ≤ 16386 → decode_of digits.now ≡ Ok bytes → ⊥)) }
{
    match hex::decode(alloc, digits) {
        Ok(bytes) if bytes.len() <= LONGEST_PAYLOAD => Ok(Some(bytes)),
        Err(FromHexError::OutOfMemory) => Err(AllocError),
        _ => Ok(None),
    }
}

/// Whether a line is written of this number and this payload.
fn is_written(alloc: Global, number: u64, payload: &[u8], line: &[u8]) -> Result<bool, AllocError>
    requires { length payload.now ≤ 2 ^ 20 }
    ensures { IfOk result (λ is. IsTrue is ↔ (line.now ++ 10 ∷ [] ≡ deliver_line number payload.now)) }
{
    let mut written = Vec::new(alloc);
    push_deliver_line(&mut written, number, payload)?;
    let mut whole = line.to_vec(alloc)?;
    whole.push(b'\n')?;
    Ok(whole.as_slice() == written.as_slice())
}

/// The number of the message that was applied, where a line tells of one.
///
/// # Errors
/// Want of memory.
pub fn number_of(alloc: Global, line: &[u8]) -> Result<Option<u64>, AllocError>
    ensures found { IfOk result (λ o. IfSome o (IsDeliver line.now)) }
    ensures none { IfOk result (λ o. IfNone o (TellsNothing line.now)) }
{
    let Some(behind) = behind_word(line) else {
        return Ok(None);
    };
    let Some((number, digits)) = number_before(behind, b' ') else {
        return Ok(None);
    };
    let Some(payload) = payload_of(alloc, digits)? else {
        return Ok(None);
    };
    if is_written(alloc, number, payload.as_slice(), line)? {
        Ok(Some(number))
    } else {
        Ok(None)
    }
}

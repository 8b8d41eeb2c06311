//! A line, and the payload that it gives to a sender.

ghost use Rattle.std.specs.Prelude.{◌≡◌, ℕ, ◌≤◌, ◌<◌, ◌^◌, List, ◌∷◌, ◌++◌, true, false, length, decimal, Ok, Some, IfOk, IfSome, IfNone};
ghost use Rattle.hex.specs.Hex.{decode_of};
ghost use Rattle.plan_text.specs.Plans.{Gift, Gives};
ghost use Rattle.plan_text.specs.Progress.{IsAdded};

use hex::FromHexError;
use plan_values::Plan;
use sbe_value::Bytes;
use std::alloc::{AllocError, Global};
use text_words::number_before;

/// The sender at the front of a line, and the digits behind the blank.
fn sender_and_digits(line: &[u8], senders: usize) -> Option<(usize, &[u8])>
    ensures found { IfSome result (λ r. line.now ≡ decimal r.0 ++ 32 ∷ r.1.now) }
    ensures range { IfSome result (λ r. (1 ≤ r.0) × (r.0 ≤ senders)) }
    ensures only { IfSome result (λ r. (s : ℕ) (digits : List ℕ) → s ≤ senders → line.now ≡ decimal s ++ 32 ∷ digits → (s ≡ r.0) × (digits ≡ r.1.now)) }
    ensures none { IfNone result ((s : ℕ) (digits : List ℕ) → 1 ≤ s → s ≤ senders → line.now ≡ decimal s ++ 32 ∷ digits → ⊥) }
{
    match number_before(line, b' ') {
        Some((sender, digits)) if sender >= 1 && sender <= senders as u64 => {
            Some((sender as usize, digits))
        }
        _ => None,
    }
}

/// The sender of a line that gives it a payload. Of a line that gives none nothing is claimed.
pub fn sender_of(line: &[u8], senders: usize) -> Option<usize>
    ensures given { (g : Gift) → Gives senders line.now g → result ≡ Some g.sender }
    ensures range { IfSome result (λ sender. (1 ≤ sender) × (sender ≤ senders)) }
{
    match sender_and_digits(line, senders) {
        Some((sender, _)) => Some(sender),
        None => None,
    }
}

/// The bytes that digits spell in hexadecimal.
fn bytes_of(alloc: Global, digits: &[u8]) -> Result<Option<Bytes>, AllocError>
    ensures found { IfOk result (λ o. IfSome o (λ bytes. decode_of digits.now ≡ Ok bytes)) }
    ensures none { IfOk result (λ o. IfNone o ((bytes : List ℕ) → decode_of digits.now ≡ Ok bytes → ⊥)) }
{
    match hex::decode(alloc, digits) {
        Ok(bytes) => Ok(Some(Bytes::from(bytes))),
        Err(FromHexError::OutOfMemory) => Err(AllocError),
        Err(_) => Ok(None),
    }
}

/// Adds the payload of a line to the plan of its sender, and says whether the line gives one.
///
/// # Errors
/// Want of memory.
pub fn add_line(alloc: Global, plans: &mut [Plan], line: &[u8]) -> Result<bool, AllocError>
    ensures added { IfOk result (λ is. is ≡ true → (g : Gift) × Gives (length plans.old) line.now g × IsAdded g plans.old plans.new) }
    ensures none { IfOk result (λ is. is ≡ false → (g : Gift) → Gives (length plans.old) line.now g → ⊥) }
{
    let Some((sender, digits)) = sender_and_digits(line, plans.len()) else {
        return Ok(false);
    };
    let Some(bytes) = bytes_of(alloc, digits)? else {
        return Ok(false);
    };
    let is_added = plans[sender - 1].add(bytes)?;
    Ok(is_added)
}

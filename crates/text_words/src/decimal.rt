//! Numbers as they are written in decimal.

ghost use Rattle.std.specs.Prelude.{◌≡◌, ℕ, ◌<◌, ◌^◌, ◌⊎◌, List, ◌∷◌, ◌++◌, length, slice_index, decimal, IfSome, IfNone};

use itoa::Buffer;
use std::str::from_utf8;

/// The number that a text is in decimal, without a sign or a leading zero, where 64 bits hold it.
pub fn number(text: &[u8]) -> Option<u64>
    ensures found { IfSome result (λ n. text.now ≡ decimal n) }
    ensures only { IfSome result (λ n. (m : ℕ) → m < 2 ^ 64 → text.now ≡ decimal m → m ≡ n) }
    ensures none { IfNone result ((n : ℕ) → n < 2 ^ 64 → text.now ≡ decimal n → ⊥) }
{
    let Ok(word) = from_utf8(text) else {
        return None;
    };
    let Ok(read) = word.parse::<u64>() else {
        return None;
    };
    let mut digits = Buffer::new();
    if digits.format(read).as_bytes() == text {
        Some(read)
    } else {
        None
    }
}

/// What stands at both sides of the first such byte.
pub(crate) fn halves(text: &[u8], byte: u8) -> Option<(&[u8], &[u8])>
    ensures found { IfSome result (λ r. text.now ≡ r.0.now ++ byte ∷ r.1.now) }
    ensures first { IfSome result (λ r. (k : ℕ) → k < length r.0.now → slice_index r.0.now k ≡ byte → ⊥) }
    ensures none { IfNone result ((k : ℕ) → k < length text.now → slice_index text.now k ≡ byte → ⊥) }
{
    for (at, here) in text.iter().enumerate() {
        if *here == byte {
            let (front, behind) = text.split_at(at);
            let (_, back) = behind.split_at(1);
            return Some((front, back));
        }
    }
    None
}

/// The number in decimal at the front of a text, which this byte ends, and what stands behind the byte.
pub fn number_before(text: &[u8], end: u8) -> Option<(u64, &[u8])>
    requires no_digit { (end < 48) ⊎ (57 < end) }
    ensures found { IfSome result (λ r. text.now ≡ decimal r.0 ++ end ∷ r.1.now) }
    ensures only { IfSome result (λ r. (m : ℕ) (rest : List ℕ) → m < 2 ^ 64 → text.now ≡ decimal m ++ end ∷ rest → (m ≡ r.0) × (rest ≡ r.1.now)) }
    ensures none { IfNone result ((n : ℕ) (rest : List ℕ) → n < 2 ^ 64 → text.now ≡ decimal n ++ end ∷ rest → ⊥) }
{
    let Some((digits, rest)) = halves(text, end) else {
        return None;
    };
    match number(digits) {
        Some(number) => Some((number, rest)),
        None => None,
    }
}

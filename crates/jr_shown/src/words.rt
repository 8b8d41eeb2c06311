//! The word that says which record is the first.

ghost use Rattle.std.specs.Prelude.{◌≡◌, ◌⊎◌, ◌<◌, ◌≤◌, ◌+◌, ◌++◌, ℕ, List, [], ◌∷◌, IfSome, IfNone};
ghost use Rattle.text_dates.specs.Dates.{digits};
ghost use Rattle.jr_shown.specs.Words.{IsBegin, SaysLast, SaysNumber, SaysTime};
ghost use Rattle.jr_shown.specs.declared.choice.Begin as begun;

use crate::choice::Begin;
use text_words::number;

/// The digit at the front of a text, and what stands behind it.
fn digit(text: &[u8]) -> Option<(u64, &[u8])>
    ensures found { IfSome result (λ p. (p.0 < 10) × (text.now ≡ (48 + p.0) ∷ p.1.now)) }
    ensures none { IfNone result ((n : ℕ) (rest : List ℕ) → n < 10 → text.now ≡ (48 + n) ∷ rest → ⊥) }
{
    let Some((first, rest)) = text.split_first() else {
        return None;
    };
    if b'0' <= *first && *first <= b'9' {
        Some((u64::from(*first - b'0'), rest))
    } else {
        None
    }
}

/// A number of two digits, zeros in front, below a limit of at most 100, and what stands behind it.
fn two_digits(text: &[u8], below: u64) -> Option<(u64, &[u8])>
    requires { below ≤ 100 }
    ensures found { IfSome result (λ p. (p.0 < below) × (text.now ≡ digits 2 p.0 ++ p.1.now)) }
    ensures none { IfNone result ((n : ℕ) (rest : List ℕ) → n < below → text.now ≡ digits 2 n ++ rest → ⊥) }
{
    let Some((tens, rest)) = digit(text) else {
        return None;
    };
    let Some((ones, rest)) = digit(rest) else {
        return None;
    };
    let number = tens * 10 + ones;
    if number < below {
        Some((number, rest))
    } else {
        None
    }
}

/// What stands behind this byte, where a text begins with it.
fn behind(text: &[u8], byte: u8) -> Option<&[u8]>
    ensures found { IfSome result (λ rest. text.now ≡ byte ∷ rest.now) }
    ensures none { IfNone result ((rest : List ℕ) → text.now ≡ byte ∷ rest → ⊥) }
{
    let Some((first, rest)) = text.split_first() else {
        return None;
    };
    if *first == byte { Some(rest) } else { None }
}

/// A number of two digits below 60 behind a colon, and what stands behind it.
fn behind_colon(text: &[u8]) -> Option<(u64, &[u8])>
    ensures found { IfSome result (λ p. (p.0 < 60) × (text.now ≡ 58 ∷ (digits 2 p.0 ++ p.1.now))) }
    ensures none { IfNone result ((n : ℕ) (rest : List ℕ) → n < 60 → text.now ≡ 58 ∷ (digits 2 n ++ rest) → ⊥) }
{
    let Some(rest) = behind(text, b':') else {
        return None;
    };
    let Some((number, rest)) = two_digits(rest, 60) else {
        return None;
    };
    Some((number, rest))
}

/// The seconds behind the minutes, 0 where the text ends there.
fn seconds_behind(text: &[u8]) -> Option<u64>
    ensures small { IfSome result (λ seconds. seconds < 60) }
    ensures found { IfSome result (λ seconds. (text.now ≡ 58 ∷ digits 2 seconds) ⊎ ((seconds ≡ 0) × (text.now ≡ []))) }
    ensures none { IfNone result ((seconds : ℕ) → seconds < 60 → text.now ≡ 58 ∷ digits 2 seconds → ⊥) }
    ensures some { IfNone result (text.now ≡ [] → ⊥) }
{
    if text.is_empty() {
        return Some(0);
    }
    let Some((seconds, rest)) = behind_colon(text) else {
        return None;
    };
    if rest.is_empty() { Some(seconds) } else { None }
}

/// The seconds since midnight that HH:MM or HH:MM:SS says.
fn time_of(word: &[u8]) -> Option<u64>
    ensures found { IfSome result (SaysTime word.now) }
    ensures none { IfNone result ((seconds : ℕ) → SaysTime word.now seconds → ⊥) }
{
    let Some((hours, rest)) = two_digits(word, 24) else {
        return None;
    };
    let Some((minutes, rest)) = behind_colon(rest) else {
        return None;
    };
    let Some(seconds) = seconds_behind(rest) else {
        return None;
    };
    Some(hours * 3600 + minutes * 60 + seconds)
}

/// A number from 1 on.
fn counted_from_one(text: &[u8]) -> Option<u64>
    ensures found { IfSome result (SaysNumber text.now) }
    ensures none { IfNone result ((n : ℕ) → SaysNumber text.now n → ⊥) }
{
    let Some(n) = number(text) else {
        return None;
    };
    if n == 0 { None } else { Some(n) }
}

/// A number from 1 on behind a minus sign.
fn counted_from_last(text: &[u8]) -> Option<u64>
    ensures found { IfSome result (SaysLast text.now) }
    ensures none { IfNone result ((n : ℕ) → SaysLast text.now n → ⊥) }
{
    let Some(rest) = behind(text, b'-') else {
        return None;
    };
    counted_from_one(rest)
}

/// What FROM says: a record's number from 1 on, one that counts from the end behind a minus sign, or a time of day as HH:MM or HH:MM:SS.
pub fn begin_of(word: &[u8]) -> Option<Begin>
    ensures found { IfSome result (IsBegin word.now) }
    ensures none { IfNone result ((begin : begun.Begin) → IsBegin word.now begin → ⊥) }
{
    if let Some(seconds) = time_of(word) {
        return Some(Begin::TimeOfDay(seconds as u32 * 1000));
    }
    if let Some(n) = counted_from_one(word) {
        return Some(Begin::Number(n));
    }
    match counted_from_last(word) {
        Some(n) => Some(Begin::Last(n)),
        None => None,
    }
}

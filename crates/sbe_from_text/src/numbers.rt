//! Numbers without a sign, on lines whose path is awaited. No end of a line is sought: a path and digits have none.

ghost use Rattle.std.specs.Prelude.{◌≡◌, ◌↔◌, ◌⊎◌, ◌≤◌, ◌∷◌, ◌++◌, true, Some, Ok, IfSome, IsTrue, length, take};
ghost use Rattle.text_words.specs.Lines.{lines_in};
ghost use Rattle.sbe_text.specs.Held.{is_word};
ghost use Rattle.sbe_text.specs.Tokens.{natural_of};
ghost use Rattle.sbe_text.specs.Reading.{read_element};

use sbe_text::leading_digits;

/// Whether bytes are a word: no line feed and no carriage return is among them.
pub fn is_word(bytes: &[u8]) -> bool
    ensures { result ≡ is_word bytes.now }
{
    for byte in bytes {
        if *byte == b'\n' || *byte == b'\r' {
            return false;
        }
    }
    true
}

// The number in front of a text, and how many digits it has.
fn leading_natural(text: &[u8]) -> Option<(u64, usize)>
    ensures number { IfSome result (λ x. natural_of (take x.1 text.now) ≡ Some x.0) }
    ensures word { IfSome result (λ x. is_word (take x.1 text.now) ≡ true) }
    ensures within { IfSome result (λ x. x.1 ≤ length text.now) }
{
    let (number, count) = leading_digits(text)?;
    let [first, _others @ ..] = text else {
        return None;
    };
    if count == 0 || (*first == b'0' && count > 1) {
        return None;
    }
    Some((number, count))
}

// Whether eight bytes are eight others.
fn same_eight(bytes: &[u8; 8], others: &[u8; 8]) -> bool
    ensures { IsTrue result ↔ (bytes.now ≡ others.now) }
{
    u64::from_le_bytes(*bytes) == u64::from_le_bytes(*others)
}

// The text behind a word that stands in front. None too where the word has a byte below a blank.
fn behind_word<'a>(word: &[u8], text: &'a [u8]) -> Option<&'a [u8]>
    ensures front { IfSome result (λ rest. text.now ≡ word.now ++ rest.now) }
    ensures word { IfSome result (λ _. is_word word.now ≡ true) }
{
    if text.len() < word.len() {
        return None;
    }
    for (at, byte) in word.iter().enumerate() {
        if text[at] != *byte || *byte < b' ' {
            return None;
        }
    }
    Some(&text[word.len()..])
}

// The same of a longer word, of which eight bytes are compared at once.
fn behind_path<'a>(path: &[u8], text: &'a [u8]) -> Option<&'a [u8]>
    ensures { IfSome result (λ rest. text.now ≡ path.now ++ rest.now) }
{
    let Some((first, others)) = path.split_first_chunk::<8>() else {
        return behind_word(path, text);
    };
    let (front, rest) = text.split_first_chunk::<8>()?;
    if !same_eight(first, front) {
        return None;
    }
    behind_word(others, rest)
}

// The text behind the end of a line, where that stands in front: a line feed, or a carriage return and one.
fn behind_end(text: &[u8]) -> Option<&[u8]>
    ensures { IfSome result (λ rest. (text.now ≡ 10 ∷ rest.now) ⊎ (text.now ≡ 13 ∷ 10 ∷ rest.now)) }
{
    match text {
        [b'\n', rest @ ..] => Some(rest),
        [b'\r', b'\n', rest @ ..] => Some(rest),
        _ => None,
    }
}

/// The number on the first line of a text, behind the path of an element, and the text behind that line. None where another line
/// stands there, or such a number that more than 64 bits hold; and where the path has a byte below a blank.
pub fn natural_line<'a>(before: &[u8], name: &[u8], left: &'a [u8]) -> Option<(u64, &'a [u8])>
    requires { is_word before.now ≡ true }
    ensures { IfSome result (λ x. read_element before.now name.now natural_of (lines_in left.now) ≡ Ok (x.0, lines_in x.1.now)) }
{
    let own = behind_path(before, left)?;
    let rest = behind_word(name, own)?;
    let [b' ', b'=', b' ', text @ ..] = rest else {
        return None;
    };
    let (number, count) = leading_natural(text)?;
    let (_, rest) = text.split_at(count);
    let rest = behind_end(rest)?;
    Some((number, rest))
}

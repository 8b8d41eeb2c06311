//! A line without its indentation, its comment and the blanks at its end, and a text cut at a byte.

ghost use Rattle.std.specs.Prelude.{◌≡◌, Option, ◌==◌, List, ℕ, length};
ghost use Rattle.std.specs.Option.{option_map};
ghost use Rattle.text_names.specs.Bare.{bare, begins_comment, cut_at, is_blank, trimmed, turned, uncommented, unended, unindented};

/// Where a byte of a line stands, by what is before it.
#[derive(Clone, Copy)]
pub(crate) enum Quote {
    /// Between no quotes.
    Outside,
    /// Between quotes.
    Inside,
    /// Between quotes, behind a backslash.
    Escaped,
}

/// Whether a byte is a space, a tab or a carriage return.
pub(crate) fn is_blank(byte: u8) -> bool
    ensures { result ≡ is_blank byte }
{
    byte == b' ' || byte == b'\t' || byte == b'\r'
}

/// What is left without the blanks at the front.
pub(crate) fn unindented(text: &[u8]) -> &[u8]
    ensures { result.now ≡ unindented text.now }
{
    let mut left = text;
    while let [first, rest @ ..] = left {
        if !is_blank(*first) {
            return left;
        }
        left = rest;
    }
    left
}

// What is left without the blanks at the end.
#[tactic(auto, using(crate::proofs::Blanks::blank_goes, crate::proofs::Blanks::other_stays))]
fn unended(text: &[u8]) -> &[u8]
    ensures { result.now ≡ unended text.now }
{
    let mut left = text;
    while let Some((last, front)) = left.split_last() {
        if !is_blank(*last) {
            return left;
        }
        left = front;
    }
    left
}

/// What is left without the blanks at both ends.
pub(crate) fn trimmed(text: &[u8]) -> &[u8]
    ensures { result.now ≡ trimmed text.now }
{
    unended(unindented(text))
}

// Where the next byte stands.
fn turned(at: Quote, byte: u8) -> Quote
    ensures { result ≡ turned at byte }
{
    match at {
        Quote::Outside if byte == b'"' => Quote::Inside,
        Quote::Outside => Quote::Outside,
        Quote::Inside if byte == b'"' => Quote::Outside,
        Quote::Inside if byte == b'\\' => Quote::Escaped,
        Quote::Inside | Quote::Escaped => Quote::Inside,
    }
}

// Whether a byte begins a comment.
fn begins_comment(at: Quote, byte: u8) -> bool
    ensures { result ≡ begins_comment at byte }
{
    match at {
        Quote::Outside => byte == b'#',
        Quote::Inside | Quote::Escaped => false,
    }
}

// A line without its comment.
fn uncommented(line: &[u8]) -> &[u8]
    ensures { result.now ≡ uncommented Quote.Outside line.now }
{
    let mut place = Quote::Outside;
    for (at, byte) in line.iter().enumerate() {
        if begins_comment(place, *byte) {
            let (front, _) = line.split_at(at);
            return front;
        }
        place = turned(place, *byte);
    }
    line
}

/// A line without its indentation, its comment and the blanks at its end, as a person may write them.
pub fn bare_line(line: &[u8]) -> &[u8]
    ensures { result.now ≡ bare line.now }
{
    trimmed(uncommented(line))
}

/// What stands in front of the first such byte, and what behind it.
pub(crate) fn cut_at(byte: u8, text: &[u8]) -> Option<(&[u8], &[u8])>
    ensures { option_map (λ p. (p.0.now, p.1.now)) result ≡ cut_at byte text.now }
{
    for (at, here) in text.iter().enumerate() {
        if *here == byte {
            let (front, behind) = text.split_at(at);
            let (_, back) = behind.split_at(1);
            return Some((front, back));
        }
    }
    None
}

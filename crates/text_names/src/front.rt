//! The message at the front of a text that a person wrote: strict lines are read as they are, others are narrowed first.

ghost use Rattle.std.specs.Prelude.{◌≡◌, ◌-◌, ◌<◌, length, IfOk, IfSome};
ghost use Rattle.std.specs.Option.{option_map};
ghost use Rattle.sbe_text.specs.Answers.{Gives};
ghost use Rattle.text_words.specs.Lines.{lines_in};
ghost use Rattle.text_names.specs.Fronts.{front_of, left_at, wide_front};

use crate::mistake::NarrowError;
use crate::narrow::{Narrow, narrow_message};
use sbe_layout::Plan;
use sbe_text::{Refusal, first_message};
use sbe_value::Message;
use std::alloc::Global;
use text_words::first_line;

// The text from its line of this number on.
fn lines_from(text: &[u8], number: u64) -> &[u8]
    ensures { length (lines_in result.now) ≡ length (lines_in text.now) - (number - 1) }
{
    let mut left = text;
    let mut before = number.saturating_sub(1);
    while before > 0 {
        let Some((_, rest)) = first_line(left) else {
            return left;
        };
        left = rest;
        before -= 1;
    }
    left
}

// The text from its line of this number on; nothing of it where there is none.
fn left_from(text: &[u8], number: Option<u64>) -> &[u8]
    ensures { length (lines_in result.now) ≡ left_at (length (lines_in text.now)) number }
{
    match number {
        Some(number) => lines_from(text, number),
        None => &[],
    }
}

// The message at the front of a text that does not begin with a strict one.
#[tactic(auto, using(crate::proofs::Fronting::wrong_front, crate::proofs::Fronting::none_front, crate::proofs::Fronting::read_front, crate::proofs::Fronting::refused_front, crate::proofs::Fronting::front_shorter))]
fn wide_message<'a>(
    alloc: Global,
    plan: &Plan,
    text: &'a [u8],
    narrow: &mut Narrow,
) -> Result<Option<(Message, &'a [u8])>, Refusal<'a>>
    ensures told { Gives (option_map (λ x. (x.0, lines_in x.1.now))) result (wide_front plan.now (lines_in text.now)) }
    ensures shorter { IfOk result (λ read. IfSome read (λ x. length (lines_in x.1.now) < length (lines_in text.now))) }
{
    let rest = match narrow_message(alloc, plan, text, narrow) {
        Ok(rest) => rest,
        Err(NarrowError::Mistake { line, .. }) => {
            return Err(Refusal::At(lines_from(text, line)));
        }
        Err(NarrowError::Memory) => return Err(Refusal::Memory),
    };
    if narrow.text.is_empty() {
        return Ok(None);
    }
    match first_message(alloc, plan, narrow.text.as_slice()) {
        Ok((message, _)) => Ok(Some((message, rest))),
        Err(Refusal::At(left)) => Err(Refusal::At(left_from(text, narrow.number_at(left)))),
        Err(Refusal::Memory) => Err(Refusal::Memory),
    }
}

/// The message at the front of a text, and the text behind it: where the strict lines of `first_message` do not stand there, the
/// wider ones are read. `None` where no line of the text has more than blanks and a comment.
///
/// # Errors
/// `At` with the text from the first line on that is not as it has to be, as it was written, and `Memory`.
pub fn front_message<'a>(
    alloc: Global,
    plan: &Plan,
    text: &'a [u8],
    narrow: &mut Narrow,
) -> Result<Option<(Message, &'a [u8])>, Refusal<'a>>
    ensures told { Gives (option_map (λ x. (x.0, lines_in x.1.now))) result (front_of plan.now (lines_in text.now)) }
    ensures shorter { IfOk result (λ read. IfSome read (λ x. length (lines_in x.1.now) < length (lines_in text.now))) }
{
    match first_message(alloc, plan, text) {
        Ok(read) => Ok(Some(read)),
        Err(Refusal::At(_)) => wide_message(alloc, plan, text, narrow),
        Err(Refusal::Memory) => Err(Refusal::Memory),
    }
}

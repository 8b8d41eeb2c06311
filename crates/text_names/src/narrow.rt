//! The strict lines of a message that a person wrote, one after another, in room that serves one message after another.

ghost use Rattle.std.specs.Prelude.{◌≡◌, ◌+◌, ◌-◌, ◌++◌, [], ◌∷◌, ℕ, List, OnOk, codes, length, slice_get};
ghost use Rattle.std.specs.Option.{option_copied};
ghost use Rattle.sbe_text.specs.Reading.{layout_on, named};
ghost use Rattle.sbe_text.specs.Tokens.{behind};
ghost use Rattle.text_words.specs.Lines.{lines_in};
ghost use Rattle.text_names.specs.Lines.{Narrowed, begins_blank, by_line, element_line, layout_from, narrowed, narrowed_message, spaced, with_told, without_element};
ghost use Rattle.text_names.specs.Steps.{Adds, Goes, Narrows, ahead, words_added};

use crate::bare::{bare_line, cut_at, is_blank, trimmed, unindented};
use crate::mistake::{NarrowError, Slip};
use crate::path::meaning_of;
use crate::value::{strict_value, write_strict};
use sbe_layout::{MessagePlan, MessagePlans, Plan};
use std::alloc::{AllocError, Global};
use text_words::{count_lines, first_line};

/// The strict lines of a message, and room for those of the next.
#[derive(Drop)]
pub struct Narrow {
    /// The lines, each with its line feed.
    pub text: Vec<u8>,
    /// Of each of them the number of the line that it came from, from 1.
    pub numbers: Vec<u64>,
    // The words of a line, and the bytes of a value in quotes.
    room: Vec<u8>,
}

/// What comes behind a line.
#[derive(Clone, Copy)]
pub(crate) enum Step<'p> {
    /// Lines, of the message that was named last.
    Next(Option<&'p MessagePlan>),
    /// Nothing more of the message.
    End,
}

// The layout of the template that the line of a message names.
pub(crate) fn layout_on<'p>(messages: &'p MessagePlans, line: &[u8]) -> Option<&'p MessagePlan>
    ensures { option_copied result ≡ layout_on messages.now line.now }
{
    let name = line.strip_prefix(b"message ")?;
    let message = named(messages.as_slice(), name)?;
    messages.find(message.template)
}

// The first message of a name.
fn named<'p>(messages: &'p [MessagePlan], name: &[u8]) -> Option<&'p MessagePlan>
    ensures { option_copied result ≡ named messages.now name.now }
{
    for message in messages {
        if message.name.as_slice() == name {
            return Some(message);
        }
    }
    None
}

/// The message that was named last: on this line, or before it.
pub(crate) fn layout_from<'p>(
    plan: &'p Plan,
    layout: Option<&'p MessagePlan>,
    line: &[u8],
) -> Option<&'p MessagePlan>
    ensures { option_copied result ≡ layout_from plan.now (option_copied layout.entry) line.now }
{
    match line.strip_prefix(b"message ") {
        Some(_) => layout_on(&plan.messages, line),
        None => layout,
    }
}

fn begins_blank(text: &[u8]) -> bool
    ensures { result ≡ begins_blank text.now }
{
    match text.first() {
        Some(first) => is_blank(*first),
        None => false,
    }
}

/// Puts the words of a line into a room, with one blank between `message` and the name.
pub(crate) fn space(line: &[u8], room: &mut Vec<u8>) -> Result<(), AllocError>
    ensures { OnOk result (room.new.items ≡ spaced line.now (behind (codes "message") line.now)) }
{
    room.clear();
    match line.strip_prefix(b"message") {
        Some(rest) if begins_blank(rest) => {
            room.extend_from_slice(b"message ")?;
            room.extend_from_slice(unindented(rest))
        }
        _ => room.extend_from_slice(line),
    }
}

impl Narrow {
    /// No lines yet.
    pub fn new(alloc: Global) -> Narrow {
        Narrow {
            text: Vec::new(alloc),
            numbers: Vec::new(alloc),
            room: Vec::new(alloc),
        }
    }

    // Drops the lines of the message before.
    fn begin(&mut self)
        ensures text { self.new.text.items ≡ [] }
        ensures numbers { self.new.numbers.items ≡ [] }
    {
        self.text.clear();
        self.numbers.clear();
    }

    // The number of the line that the one came from at which this is left of the lines.
    pub(crate) fn number_at(&self, left: &[u8]) -> Option<u64>
        ensures { result ≡ slice_get self.now.numbers.items (length self.now.numbers.items - length (lines_in left.now)) }
    {
        let at = self
            .numbers
            .len()
            .saturating_sub(count_lines(left) as usize);
        self.numbers.as_slice().get(at).copied()
    }

    // Adds the line of an element.
    #[tactic(auto, using(crate::proofs::Narrowing::element_added, crate::proofs::Narrowing::element_fails))]
    fn add_element<'a>(
        &mut self,
        alloc: Global,
        plan: &Plan,
        layout: Option<&MessagePlan>,
        number: u64,
        path: &'a [u8],
        value: &'a [u8],
    ) -> Result<(), NarrowError<'a>>
        ensures { (more : Narrowed) → Adds (ahead self.old.text.items self.old.numbers.items (with_told number (element_line plan.now.listings (option_copied layout.entry) path.now value.now) more)) self.new.text.items self.new.numbers.items more result }
    {
        let listings = plan.listings.as_slice();
        let meaning = meaning_of(layout, path);
        let strict = match strict_value(listings, meaning, value, &mut self.room) {
            Ok(strict) => strict,
            Err(Slip::Mistake(wrong, word)) => {
                return Err(NarrowError::Mistake {
                    line: number,
                    wrong,
                    word,
                });
            }
            Err(Slip::Memory) => return Err(NarrowError::Memory),
        };
        self.text.extend_from_slice(path)?;
        self.text.extend_from_slice(b" = ")?;
        write_strict(alloc, strict, self.room.as_slice(), &mut self.text)?;
        self.text.push(b'\n')?;
        self.numbers.push(number)?;
        Ok(())
    }

    // Adds a line of words.
    #[tactic(auto, using(crate::proofs::Narrowing::words_end, crate::proofs::Narrowing::words_next))]
    fn add_words<'p, 'a>(
        &mut self,
        plan: &'p Plan,
        layout: Option<&'p MessagePlan>,
        number: u64,
        line: &[u8],
    ) -> Result<Step<'p>, NarrowError<'a>>
        ensures { (ls : List (List ℕ)) → Goes plan.now number ls (ahead self.old.text.items self.old.numbers.items (words_added plan.now (option_copied layout.entry) number (spaced line.now (behind (codes "message") line.now)) ls)) self.new.text.items self.new.numbers.items result }
    {
        space(line, &mut self.room)?;
        self.text.extend_from_slice(self.room.as_slice())?;
        self.text.push(b'\n')?;
        self.numbers.push(number)?;
        if self.room.as_slice() == b"end".as_slice() {
            return Ok(Step::End);
        }
        Ok(Step::Next(layout_from(plan, layout, self.room.as_slice())))
    }

    // Adds a line without an element, if it has words.
    #[tactic(auto, using(crate::proofs::Narrowing::some_words))]
    fn add_other<'p, 'a>(
        &mut self,
        plan: &'p Plan,
        layout: Option<&'p MessagePlan>,
        number: u64,
        line: &[u8],
    ) -> Result<Step<'p>, NarrowError<'a>>
        ensures { (ls : List (List ℕ)) → Goes plan.now number ls (ahead self.old.text.items self.old.numbers.items (by_line plan.now (option_copied layout.entry) number (without_element line.now) ls (λ following. narrowed plan.now following (number + 1) ls))) self.new.text.items self.new.numbers.items result }
    {
        if line.is_empty() {
            return Ok(Step::Next(layout));
        }
        self.add_words(plan, layout, number, line)
    }

    // Adds what stands on a line.
    #[tactic(auto, using(crate::proofs::Narrowing::element_step, crate::proofs::Narrowing::other_step))]
    fn add<'p, 'a>(
        &mut self,
        alloc: Global,
        plan: &'p Plan,
        layout: Option<&'p MessagePlan>,
        number: u64,
        line: &'a [u8],
    ) -> Result<Step<'p>, NarrowError<'a>>
        ensures { (ls : List (List ℕ)) → Goes plan.now number ls (ahead self.old.text.items self.old.numbers.items (narrowed plan.now (option_copied layout.entry) number (line.now ∷ ls))) self.new.text.items self.new.numbers.items result }
    {
        let line = bare_line(line);
        let Some((path, value)) = cut_at(b'=', line) else {
            return self.add_other(plan, layout, number, line);
        };
        match self.add_element(alloc, plan, layout, number, trimmed(path), trimmed(value)) {
            Ok(()) => Ok(Step::Next(layout)),
            Err(e) => Err(e),
        }
    }
}

/// Keeps the strict lines of the message at the front of a text, up to its line `end`, and gives the text behind it. What a
/// person may write besides strict lines becomes strict; all else stays as it is, and is refused by the reader of strict lines.
///
/// # Errors
/// `Mistake` where a value is no name of its type, or no text in quotes: the lines before it are kept. `Memory`.
#[tactic(auto, using(text_words::proofs::Feeds::lines_within))]
pub fn narrow_message<'a>(
    alloc: Global,
    plan: &Plan,
    text: &'a [u8],
    out: &mut Narrow,
) -> Result<&'a [u8], NarrowError<'a>>
    ensures narrowed { Narrows (narrowed_message plan.now (lines_in text.now)) out.new.text.items out.new.numbers.items result }
{
    out.begin();
    let mut layout: Option<&MessagePlan> = None;
    let mut number = 1u64;
    let mut left = text;
    while let Some((line, rest)) = first_line(left) {
        match out.add(alloc, plan, layout, number, line) {
            Ok(Step::Next(next)) => layout = next,
            Ok(Step::End) => return Ok(rest),
            Err(e) => return Err(e),
        }
        number += 1;
        left = rest;
    }
    Ok(left)
}

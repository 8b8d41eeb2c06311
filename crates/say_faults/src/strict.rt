//! The strict lines of a text that a person wrote, to say what is wrong with one of them.

use crate::codec::line_at;
use sbe_layout::Plan;
use std::alloc::{AllocError, Global};
use text_names::{Narrow, NarrowError, narrow_message};
use text_words::count_lines;

/// The strict lines of a text, up to the first line that has none and with this one.
#[derive(Drop)]
pub struct Strict {
    /// The lines, each with its line feed.
    pub text: Vec<u8>,
    /// Of each of them the number of the line that it came from, from 1.
    numbers: Vec<u64>,
}

fn is_blank(byte: u8) -> bool {
    byte == b' ' || byte == b'\t'
}

/// What stands behind the blanks at the front.
fn unindented(text: &[u8]) -> &[u8] {
    let at = text.iter().position(|&byte| !is_blank(byte));
    text.get(at.unwrap_or(text.len())..).unwrap_or(&[])
}

/// The bytes in front of the first blank.
fn word_of(text: &[u8]) -> &[u8] {
    let at = text.iter().position(|&byte| is_blank(byte));
    text.get(..at.unwrap_or(text.len())).unwrap_or(text)
}

/// What stands in front of the rest of a text.
fn in_front<'a>(text: &'a [u8], rest: &[u8]) -> &'a [u8] {
    let size = text.len().saturating_sub(rest.len());
    text.get(..size).unwrap_or(text)
}

impl Strict {
    /// The strict lines of a text, before which so many lines stand.
    pub fn of(alloc: Global, plan: &Plan, text: &[u8], before: u64) -> Result<Strict, AllocError> {
        let mut strict = Strict {
            text: Vec::new(alloc),
            numbers: Vec::new(alloc),
        };
        let mut narrow = Narrow::new(alloc);
        let mut left = text;
        let mut before = before;
        for _ in 0..text.len() {
            if left.is_empty() {
                break;
            }
            let end = match narrow_message(alloc, plan, left, &mut narrow) {
                Ok(rest) => Ok(rest),
                Err(NarrowError::Mistake { line, .. }) => Err(line),
                Err(NarrowError::Memory) => return Err(AllocError),
            };
            strict.add(&narrow, before)?;
            match end {
                Ok(rest) => {
                    before = before.saturating_add(count_lines(in_front(left, rest)));
                    left = rest;
                }
                Err(line) => {
                    strict.add_wrong(left, before, line)?;
                    return Ok(strict);
                }
            }
        }
        Ok(strict)
    }

    /// Adds the lines of a message, behind so many lines of the text.
    fn add(&mut self, narrow: &Narrow, before: u64) -> Result<(), AllocError> {
        self.text.extend_from_slice(narrow.text.as_slice())?;
        for &number in narrow.numbers.as_slice() {
            self.numbers.push(before.saturating_add(number))?;
        }
        Ok(())
    }

    /// Adds a line of an element whose value is wrong, as it is.
    fn add_wrong(&mut self, left: &[u8], before: u64, line: u64) -> Result<(), AllocError> {
        let wrong = line_at(left, line).unwrap_or(&[]);
        if let Some(at) = wrong.iter().position(|&byte| byte == b'=') {
            let (path, behind) = wrong.split_at(at);
            self.text.extend_from_slice(word_of(unindented(path)))?;
            self.text.extend_from_slice(b" = ")?;
            let value = behind.strip_prefix(b"=").unwrap_or(behind);
            self.text.extend_from_slice(unindented(value))?;
        }
        self.text.push(b'\n')?;
        self.numbers.push(before.saturating_add(line))?;
        Ok(())
    }

    /// The number of the strict line that came from the line of this number; else behind the last.
    pub fn place_of(&self, number: u64) -> u64 {
        let places = self.numbers.as_slice();
        let at = places.iter().position(|&place| place == number);
        (at.unwrap_or(places.len()) as u64).saturating_add(1)
    }

    /// The number of the line that a strict line came from.
    pub fn number_of(&self, place: u64) -> u64 {
        let at = usize::try_from(place.saturating_sub(1)).unwrap_or(usize::MAX);
        self.numbers.as_slice().get(at).copied().unwrap_or(place)
    }
}

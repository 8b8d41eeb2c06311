//! Where a key or a table stands in a TOML text, found again by its path. The text is one that was read before, so that its strings, lists
//! and tables are whole; in any other text nothing is found, or something else.

use sbe_value::Step;
use std::alloc::{AllocError, Global};

/// One step to the place that the walk has come to.
#[derive(Clone, Copy)]
enum Part<'a> {
    Key(&'a [u8]),
    At(u64),
}

/// What is not closed yet. Behind its end the path has `back` steps.
#[derive(Clone, Copy)]
enum Level {
    /// A list, and the place of its next element.
    List { at: u64, back: usize },
    /// A table in braces.
    Braces { back: usize },
}

/// The tables of a list in double brackets: its dotted name, and the place of the last one.
#[derive(Clone, Copy)]
struct Tables<'a> {
    name: &'a [u8],
    last: u64,
}

/// The walk over a text, up to the place that is looked for.
#[derive(Drop)]
struct Walk<'a> {
    alloc: Global,
    left: &'a [u8],
    path: Vec<Part<'a>>,
    levels: Vec<Level>,
    tables: Vec<Tables<'a>>,
    target: &'a [Step],
    /// The text from the place on.
    found: Option<&'a [u8]>,
}

/// What stands behind the end of the line.
fn behind_line(text: &[u8]) -> &[u8] {
    let mut left = text;
    for _ in 0..text.len() {
        match left {
            [b'\n', rest @ ..] => return rest,
            [_, rest @ ..] => left = rest,
            [] => return left,
        }
    }
    left
}

/// What stands behind blanks, ends of lines and comments.
fn behind_blank(text: &[u8]) -> &[u8] {
    let mut left = text;
    for _ in 0..text.len() {
        match left {
            [b' ' | b'\t' | b'\r' | b'\n', rest @ ..] => left = rest,
            [b'#', ..] => left = behind_line(left),
            _ => return left,
        }
    }
    left
}

/// What stands behind a string of one quote, from behind that quote on.
fn behind_short(text: &[u8], quote: u8) -> &[u8] {
    let mut left = text;
    for _ in 0..text.len() {
        match left {
            [b'\\', _, rest @ ..] if quote == b'"' => left = rest,
            [byte, rest @ ..] if *byte == quote => return rest,
            [_, rest @ ..] => left = rest,
            [] => return left,
        }
    }
    left
}

/// What stands behind the quotes of a string's end, beside the three that end it: at most two, which are its own.
fn behind_quotes(text: &[u8], quote: u8) -> &[u8] {
    match text {
        [first, second, rest @ ..] if *first == quote && *second == quote => rest,
        [first, rest @ ..] if *first == quote => rest,
        _ => text,
    }
}

/// What stands behind a string of three quotes, from behind these on.
fn behind_long(text: &[u8], quote: u8) -> &[u8] {
    let mut left = text;
    for _ in 0..text.len() {
        match left {
            [b'\\', _, rest @ ..] if quote == b'"' => left = rest,
            [first, second, third, rest @ ..]
                if *first == quote && *second == quote && *third == quote => {
                return behind_quotes(rest, quote);
            }
            [_, rest @ ..] => left = rest,
            [] => return left,
        }
    }
    left
}

/// What stands behind a string.
fn behind_string(text: &[u8]) -> &[u8] {
    match text {
        [b'"', b'"', b'"', rest @ ..] => behind_long(rest, b'"'),
        [b'\'', b'\'', b'\'', rest @ ..] => behind_long(rest, b'\''),
        [quote, rest @ ..] => behind_short(rest, *quote),
        [] => text,
    }
}

/// Whether a byte ends a key without quotes.
fn ends_key(byte: u8) -> bool {
    matches!(byte, b'.' | b'=' | b']' | b' ' | b'\t' | b'\r' | b'\n')
}

/// Whether a byte ends a value that is no string, list or table.
fn ends_value(byte: u8) -> bool {
    matches!(byte, b',' | b']' | b'}' | b'#' | b'\n')
}

/// What stands in front of some bytes that a text ends with.
fn in_front<'a>(text: &'a [u8], rest: &[u8]) -> &'a [u8] {
    let count = text.len().saturating_sub(rest.len());
    let (front, _) = text.split_at(count);
    front
}

/// What stands behind a key without quotes.
fn behind_bare(text: &[u8]) -> &[u8] {
    let mut left = text;
    for _ in 0..text.len() {
        match left {
            [byte, rest @ ..] if !ends_key(*byte) => left = rest,
            _ => return left,
        }
    }
    left
}

/// What stands behind a value that is no string, list or table.
fn behind_bare_value(text: &[u8]) -> &[u8] {
    let mut left = text;
    for _ in 0..text.len() {
        match left {
            [byte, rest @ ..] if !ends_value(*byte) => left = rest,
            _ => return left,
        }
    }
    left
}

/// What stands between the quotes of the string at the front of a text, which ends before these bytes.
fn between_quotes<'a>(text: &'a [u8], rest: &[u8]) -> &'a [u8] {
    match in_front(text, rest) {
        [_, inner @ .., _] => inner,
        front => front,
    }
}

/// The first part of a dotted key, and what stands behind it.
fn first_part(text: &[u8]) -> (&[u8], &[u8]) {
    match text {
        [b'"' | b'\'', ..] => {
            let rest = behind_string(text);
            (between_quotes(text, rest), rest)
        }
        _ => {
            let rest = behind_bare(text);
            (in_front(text, rest), rest)
        }
    }
}

/// Whether a name in brackets names something in what another one names.
fn is_inside(name: &[u8], outer: &[u8]) -> bool {
    match name.strip_prefix(outer) {
        Some(rest) => rest.starts_with(b"."),
        None => false,
    }
}

/// The place of the last table of a list, if there is one.
fn last_of(tables: &[Tables<'_>], name: &[u8]) -> Option<u64> {
    for known in tables {
        if known.name == name {
            return Some(known.last);
        }
    }
    None
}

/// Whether a part of a path is this step.
fn is_step(part: Part<'_>, step: &Step) -> bool {
    match (part, step) {
        (Part::Key(part), Step::Key(key)) => key.as_slice() == part,
        (Part::At(part), Step::At(at)) => part == *at,
        _ => false,
    }
}

/// Whether a path leads to a place.
fn leads_to(path: &[Part<'_>], target: &[Step]) -> bool {
    if path.len() != target.len() {
        return false;
    }
    for (part, step) in path.iter().zip(target.iter()) {
        if !is_step(*part, step) {
            return false;
        }
    }
    true
}

impl<'a> Walk<'a> {
    /// Takes so many steps of the path back that it has no more than these.
    fn go_back(&mut self, to: usize) {
        for _ in 0..self.path.len() {
            if self.path.len() <= to {
                return;
            }
            let _ = self.path.pop();
        }
    }

    /// Keeps the place from which on this text stands, where it is the one that is looked for.
    fn look(&mut self, here: &'a [u8]) {
        if self.found.is_none() && leads_to(self.path.as_slice(), self.target) {
            self.found = Some(here);
        }
    }

    /// Takes the dotted key at the front and the equals sign behind it.
    fn take_key(&mut self) -> Result<(), AllocError> {
        for _ in 0..self.left.len() {
            let (part, rest) = first_part(self.left);
            self.path.push(Part::Key(part))?;
            match behind_blank(rest) {
                [b'.', rest @ ..] => self.left = behind_blank(rest),
                [b'=', rest @ ..] => {
                    self.left = behind_blank(rest);
                    return Ok(());
                }
                rest => {
                    self.left = rest;
                    return Ok(());
                }
            }
        }
        Ok(())
    }

    /// Takes the value at the front, or the beginning of a list or a table; behind its end the path has so many steps.
    fn take_value(&mut self, back: usize) -> Result<(), AllocError> {
        match self.left {
            [b'[', rest @ ..] => {
                self.left = rest;
                self.levels.push(Level::List { at: 0, back })?;
            }
            [b'{', rest @ ..] => {
                self.left = rest;
                self.levels.push(Level::Braces { back })?;
            }
            [b'"' | b'\'', ..] => {
                self.left = behind_string(self.left);
                self.go_back(back);
            }
            _ => {
                self.left = behind_bare_value(self.left);
                self.go_back(back);
            }
        }
        Ok(())
    }

    /// Takes a key and its value.
    fn take_pair(&mut self) -> Result<(), AllocError> {
        let (here, back) = (self.left, self.path.len());
        self.take_key()?;
        self.look(here);
        self.take_value(back)
    }

    /// Closes the list or the table that is under way.
    fn close(&mut self) {
        match self.levels.pop() {
            Some(Level::List { back, .. }) => self.go_back(back),
            Some(Level::Braces { back }) => self.go_back(back),
            None => {}
        }
    }

    /// Goes on in a list, whose next element has this place.
    fn go_on_in_list(&mut self, at: u64, back: usize) -> Result<(), AllocError> {
        match self.left {
            [b']', rest @ ..] => {
                self.left = rest;
                self.close();
                Ok(())
            }
            [b',', rest @ ..] => {
                self.left = rest;
                let _ = self.levels.pop();
                self.levels.push(Level::List {
                    at: at.saturating_add(1),
                    back,
                })?;
                Ok(())
            }
            here => {
                let back = self.path.len();
                self.path.push(Part::At(at))?;
                self.look(here);
                self.take_value(back)
            }
        }
    }

    /// Goes on in a table in braces.
    fn go_on_in_braces(&mut self) -> Result<(), AllocError> {
        match self.left {
            [b'}', rest @ ..] => {
                self.left = rest;
                self.close();
                Ok(())
            }
            [b',', rest @ ..] => {
                self.left = rest;
                Ok(())
            }
            _ => self.take_pair(),
        }
    }

    /// Counts one more table of a list; the lists in it begin anew.
    fn count_table(&mut self, name: &'a [u8]) -> Result<(), AllocError> {
        let last = match last_of(self.tables.as_slice(), name) {
            Some(last) => last.saturating_add(1),
            None => 0,
        };
        let mut tables = Vec::new(self.alloc);
        for known in self.tables.as_slice() {
            if known.name != name && !is_inside(known.name, name) {
                tables.push(*known)?;
            }
        }
        tables.push(Tables { name, last })?;
        self.tables = tables;
        Ok(())
    }

    /// Goes to the table of this dotted name, the last one of each list.
    fn go_to(&mut self, name: &'a [u8]) -> Result<(), AllocError> {
        self.go_back(0);
        let mut left = name;
        for _ in 0..=name.len() {
            let (part, rest) = first_part(left);
            self.path.push(Part::Key(part))?;
            if let Some(at) = last_of(self.tables.as_slice(), in_front(name, rest)) {
                self.path.push(Part::At(at))?;
            }
            match rest {
                [b'.', rest @ ..] => left = rest,
                _ => return Ok(()),
            }
        }
        Ok(())
    }

    /// Takes the name of a table between its brackets, and goes there.
    fn take_header(&mut self, name: &'a [u8], is_listed: bool) -> Result<(), AllocError> {
        let here = self.left;
        let name = in_front(name, behind_header(name)).trim_ascii();
        if is_listed {
            self.count_table(name)?;
        }
        self.go_to(name)?;
        self.look(here);
        self.left = behind_line(here);
        Ok(())
    }

    /// Goes on outside of lists and tables in braces.
    fn go_on_outside(&mut self) -> Result<(), AllocError> {
        match self.left {
            [b'[', b'[', name @ ..] => self.take_header(name, true),
            [b'[', name @ ..] => self.take_header(name, false),
            _ => self.take_pair(),
        }
    }

    /// Goes on to the next key, element, comma or end.
    fn go_on(&mut self) -> Result<(), AllocError> {
        let level = self.levels.as_slice().last().copied();
        match level {
            Some(Level::List { at, back }) => self.go_on_in_list(at, back),
            Some(Level::Braces { .. }) => self.go_on_in_braces(),
            None => self.go_on_outside(),
        }
    }
}

/// What stands behind the name of a table, from its bracket on.
fn behind_header(name: &[u8]) -> &[u8] {
    let mut left = name;
    for _ in 0..name.len() {
        match left {
            [b']', ..] | [] => return left,
            [_, rest @ ..] => left = rest,
        }
    }
    left
}

/// The text from the key or the table of this path on, where it has one. The walk takes one step over the text.
///
/// # Errors
/// Want of memory.
pub fn text_at<'a>(
    alloc: Global,
    text: &'a [u8],
    target: &'a [Step],
) -> Result<Option<&'a [u8]>, AllocError> {
    let mut walk = Walk {
        alloc,
        left: text,
        path: Vec::new(alloc),
        levels: Vec::new(alloc),
        tables: Vec::new(alloc),
        target,
        found: None,
    };
    for _ in 0..text.len() {
        walk.left = behind_blank(walk.left);
        if walk.left.is_empty() || walk.found.is_some() {
            break;
        }
        walk.go_on()?;
    }
    Ok(walk.found)
}

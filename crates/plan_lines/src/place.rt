//! How far a text was read, and what a line more makes of it.

ghost use Rattle.std.specs.Prelude.{◌≡◌, ◌≤◌, ◌+◌, ◌++◌, ◌↔◌, ℕ, List, codes, decimal, length, IfSome, IfNone, IfErr, IsTrue, OnOk};
ghost use Rattle.jr_record.specs.Records.{IsSender};
ghost use Rattle.gw_lines.specs.Lines.{IsTold};
ghost use Rattle.plan_lines.specs.Progress.{Adds, Finishes, Gives, GivesBytes, Goes, Halts, HaltsAtEnd, IsAll, Names, NamesNobody, RefusesOne, Stands, Starts, TakesText, line_of};

use crate::end::{Stop, Wrong};
use crate::form::{Form, SENDERS};
use crate::message::{Given, has_end, push_gift, refused_in, write_message};
use crate::numbers::Numbers;
use gw_lines::{Found, LineReader};
use sbe_from_text::{Rooms, Unwritten};
use sbe_layout::Plan;
use std::alloc::{AllocError, Global};
use text_names::bare_line;
use text_words::{count_lines, number};

/// The most bytes of one message's text.
pub(crate) const LIMIT: usize = 67_108_864;

/// How far a text was read.
#[derive(Drop)]
pub(crate) struct Place {
    pub(crate) form: Form,
    /// Whose the next message is.
    pub(crate) sender: u16,
    pub(crate) numbers: Numbers,
    /// The lines of the message that has not ended, each with a carriage return and a line feed: so none loses one of its own when it is
    /// read from here.
    pub(crate) text: Vec<u8>,
    /// The number of the first of these lines, from 1 on.
    pub(crate) first: u64,
    /// The lines that wait to be pushed.
    pub(crate) lines: Vec<u8>,
}

/// What stands behind the first word of a line that begins as one that names a sender.
fn behind_sender(line: &[u8]) -> Option<&[u8]>
    ensures found { IfSome result (λ behind. line.now ≡ codes "sender " ++ behind.now) }
    ensures none { IfNone result ((behind : List ℕ) → line.now ≡ codes "sender " ++ behind → ⊥) }
{
    line.strip_prefix(b"sender ")
}

/// The sender that digits name.
fn sender_of(digits: &[u8]) -> Option<u16>
    ensures sender { IfSome result IsSender }
    ensures found { IfSome result (λ sender. digits.now ≡ decimal sender) }
    ensures none { IfNone result ((sender : ℕ) → IsSender sender → digits.now ≡ decimal sender → ⊥) }
{
    match number(digits) {
        Some(sender) if sender >= 1 && sender <= SENDERS => Some(sender as u16),
        _ => None,
    }
}

/// Whether a line says that nothing more will be sent.
fn is_finish(line: &[u8]) -> bool
    ensures { IsTrue result ↔ (line.now ≡ codes "finish") }
{
    line == b"finish".as_slice()
}

impl Place {
    /// The beginning of a text.
    pub(crate) fn new(alloc: Global, form: Form) -> Place
        ensures { Starts form result }
    {
        Place {
            form,
            sender: 1,
            numbers: Numbers::new(form),
            text: Vec::new(alloc),
            first: 1,
            lines: Vec::new(alloc),
        }
    }

    /// The number of the line of the message at which so many are left.
    fn line_of(&self, left: u64) -> u64
        ensures { result ≡ line_of self.now left }
    {
        let before = count_lines(self.text.as_slice()).saturating_sub(left);
        self.first.saturating_add(before)
    }

    /// Has a line name the sender of the messages behind it.
    fn name(&mut self, digits: &[u8], line: u64) -> Result<(), Stop>
        ensures named { OnOk result (Names digits.now self.old self.new) }
        ensures refused { IfErr result (NamesNobody digits.now line self.old self.new) }
        ensures form { self.new.form ≡ self.old.form }
    {
        match sender_of(digits) {
            Some(sender) => {
                self.sender = sender;
                Ok(())
            }
            None => Err(Stop::Wrong {
                line,
                wrong: Wrong::Sender,
            }),
        }
    }

    /// Adds the line that says that nothing more will be sent.
    fn finish(&mut self) -> Result<(), Stop>
        ensures finished { OnOk result (Finishes self.old self.new) }
        ensures form { self.new.form ≡ self.old.form }
        ensures failed { IfErr result (λ stop. stop ≡ Stop.Memory) }
    {
        match self.lines.extend_from_slice(b"finish\n") {
            Ok(()) => Ok(()),
            Err(_) => Err(Stop::Memory),
        }
    }

    /// Why a line behind the front of a message is refused: one of those before it is, or else this one, for this reason.
    fn refuse(&self, alloc: Global, plan: &Plan, line: u64, wrong: Wrong) -> Stop
        ensures { RefusesOne plan.now self.now line wrong result }
    {
        match refused_in(alloc, plan, self.text.as_slice()) {
            Ok(Some(left)) => Stop::Wrong {
                line: self.line_of(count_lines(left)),
                wrong: Wrong::Line,
            },
            Ok(None) => Stop::Wrong { line, wrong },
            Err(_) => Stop::Memory,
        }
    }

    /// Adds a line to those of the message.
    fn add(&mut self, line: &[u8]) -> Result<(), AllocError>
        ensures adds { OnOk result (Adds line.now self.old self.new) }
        ensures form { self.new.form ≡ self.old.form }
    {
        self.text.extend_from_slice(line)?;
        self.text.extend_from_slice(b"\r\n")
    }

    /// Adds the line of a message of these bytes, and counts it.
    fn give(&mut self, plan: &Plan, message: &[u8]) -> Result<(), AllocError>
        requires sender { IsSender self.old.sender }
        requires short { length message.now ≤ 16384 }
        ensures gives { OnOk result (GivesBytes plan.now message.now self.old self.new) }
        ensures form { self.new.form ≡ self.old.form }
    {
        let given = Given {
            sender: self.sender,
            number: self.numbers.of(self.sender),
            order: plan.order,
            message,
        };
        push_gift(&mut self.lines, self.form, given)?;
        self.numbers.count(self.sender);
        self.text.clear();
        Ok(())
    }

    /// Gives the message that the text is to its sender.
    fn take_message(&mut self, alloc: Global, plan: &Plan, rooms: &mut Rooms) -> Result<(), Stop>
        requires { IsSender self.old.sender }
        ensures gives { Gives plan.now self.old self.new result }
        ensures form { self.new.form ≡ self.old.form }
    {
        match write_message(alloc, plan, self.text.as_slice(), rooms) {
            Ok(()) => {}
            Err(Unwritten::Line(left)) => {
                return Err(Stop::Wrong {
                    line: self.line_of(count_lines(left)),
                    wrong: Wrong::Line,
                });
            }
            Err(Unwritten::Fault(fault)) => {
                return Err(Stop::Wrong {
                    line: self.first,
                    wrong: Wrong::Message(fault),
                });
            }
            Err(Unwritten::Memory) => return Err(Stop::Memory),
        }
        match self.give(plan, rooms.sheet.bytes.as_slice()) {
            Ok(()) => Ok(()),
            Err(_) => Err(Stop::Memory),
        }
    }

    /// Adds a line to those of the message, and gives the message where that is its last.
    fn take_text(
        &mut self,
        alloc: Global,
        plan: &Plan,
        rooms: &mut Rooms,
        line: &[u8],
        number: u64,
    ) -> Result<(), Stop>
        requires { IsSender self.old.sender }
        ensures takes { TakesText plan.now line.now number self.old self.new result }
        ensures form { self.new.form ≡ self.old.form }
        ensures sender { OnOk result (IsSender self.new.sender) }
    {
        if line.len() + 2 > LIMIT.saturating_sub(self.text.len()) {
            return Err(self.refuse(alloc, plan, number, Wrong::Endless));
        }
        let Ok(()) = self.add(line) else {
            return Err(Stop::Memory);
        };
        match has_end(alloc, plan, self.text.as_slice(), line) {
            Ok(true) => self.take_message(alloc, plan, rooms),
            Ok(false) => Ok(()),
            Err(_) => Err(Stop::Memory),
        }
    }

    /// Takes a line of this number.
    pub(crate) fn take_line(
        &mut self,
        alloc: Global,
        plan: &Plan,
        rooms: &mut Rooms,
        line: &[u8],
        number: u64,
    ) -> Result<(), Stop>
        requires { IsSender self.old.sender }
        ensures sender { OnOk result (IsSender self.new.sender) }
        ensures form { self.new.form ≡ self.old.form }
        ensures goes { OnOk result (Goes plan.now self.old self.new line.now number) }
        ensures halts { IfErr result (Halts plan.now self.old self.new line.now number) }
    {
        if !self.text.is_empty() {
            return self.take_text(alloc, plan, rooms, line, number);
        }
        let words = bare_line(line);
        if words.is_empty() {
            return Ok(());
        }
        if is_finish(words) {
            return self.finish();
        }
        match behind_sender(words) {
            Some(digits) => self.name(digits, number),
            None => {
                self.first = number;
                self.take_text(alloc, plan, rooms, line, number)
            }
        }
    }

    /// Takes a line of this number that a reader found.
    pub(crate) fn take_found(
        &mut self,
        alloc: Global,
        plan: &Plan,
        rooms: &mut Rooms,
        reader: &LineReader,
        found: Found,
    ) -> Result<(), Stop>
        requires { IsSender self.old.sender }
        ensures sender { OnOk result (IsSender self.new.sender) }
        ensures form { self.new.form ≡ self.old.form }
        ensures goes { OnOk result ((says raw : List ℕ) → IsTold found reader.now.line says raw → length raw ≤ length says + 1 → Goes plan.now self.old self.new says reader.now.number) }
        ensures halts { IfErr result (λ stop. (says raw : List ℕ) → IsTold found reader.now.line says raw → length raw ≤ length says + 1 → Halts plan.now self.old self.new says reader.now.number stop) }
    {
        match found {
            Found::Whole => self.take_line(alloc, plan, rooms, reader.line(), reader.number()),
            Found::TooLong => { Err(self.refuse(alloc, plan, reader.number(), Wrong::TooLong)) }
        }
    }

    /// Takes the end of the text: a message whose `end` did not come is refused.
    pub(crate) fn take_end(&self, alloc: Global, plan: &Plan) -> Result<(), Stop>
        ensures ends { OnOk result ((pushed : List ℕ) (lines : List (List ℕ)) → Stands plan.now pushed self.now lines → IsAll plan.now pushed self.now lines) }
        ensures halts { IfErr result (λ stop. HaltsAtEnd plan.now self.now self.now stop) }
    {
        if self.text.is_empty() {
            return Ok(());
        }
        Err(self.refuse(alloc, plan, self.line_of(0), Wrong::Line))
    }
}

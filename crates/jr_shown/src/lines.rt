//! The lines of a record, and that of the end.

ghost use Rattle.std.specs.Prelude.{◌≡◌, ◌++◌, codes, decimal, OnOk};
ghost use Rattle.hex.specs.Hex.{encode_lower};
ghost use Rattle.sbe_layout.specs.Legal.{LegalPlan};
ghost use Rattle.jr_record.specs.Records.{IsPayload, IsRecord};
ghost use Rattle.jr_dated.specs.Dated.{IsDated, stamped};
ghost use Rattle.jr_shown.specs.Shown.{end_line, payload_lines, record_lines, says};

use frame_text::{Held, push_application};
use jr_json::order_in;
use jr_record::Record;
use jr_stream::End;
use sbe_layout::Plan;
use std::alloc::{AllocError, Global};
use text_seconds::Seconds;
use text_words::{push_hex, push_number};

/// Adds a payload as its bytes, with these words.
fn push_unread(lines: &mut Vec<u8>, payload: &[u8], why: &[u8]) -> Result<(), AllocError>
    requires { IsPayload payload.now }
    ensures { OnOk result (lines.new.items ≡ lines.old.items
        ++ (codes "payload " ++ encode_lower payload.now ++ codes "\nfault " ++ why.now ++ codes "\nend\n")) }
{
    lines.extend_from_slice(b"payload ")?;
    push_hex(lines, payload)?;
    lines.extend_from_slice(b"\nfault ")?;
    lines.extend_from_slice(why)?;
    lines.extend_from_slice(b"\nend\n")
}

/// Adds the lines of a payload.
#[tactic(auto, unfolding(crate::specs::Shown::payload_lines))]
fn push_payload(
    alloc: Global,
    plan: &Plan,
    payload: &[u8],
    lines: &mut Vec<u8>,
) -> Result<(), AllocError>
    requires legal { LegalPlan plan.now }
    requires size { IsPayload payload.now }
    ensures { OnOk result (lines.new.items ≡ lines.old.items ++ payload_lines plan.now payload.now) }
{
    let (_, message) = payload.split_at(2);
    match order_in(payload) {
        Some(order) => push_application(alloc, plan, Held { order, message }, lines),
        None => push_unread(
            lines,
            payload,
            b"it begins with no encoding type of a message",
        ),
    }
}

/// Adds the first words of an entry.
fn push_entry(lines: &mut Vec<u8>, number: u64, sender: u16, k: u64) -> Result<(), AllocError>
    ensures { OnOk result (lines.new.items ≡ lines.old.items
        ++ (codes "entry " ++ decimal number ++ codes " sender " ++ decimal sender ++ codes " k " ++ decimal k ++ codes "\n")) }
{
    push_number(lines, b"entry ", number)?;
    push_number(lines, b" sender ", u64::from(sender))?;
    push_number(lines, b" k ", k)?;
    lines.extend_from_slice(b"\n")
}

/// Adds a line of one word and a number.
fn push_counted(lines: &mut Vec<u8>, word: &[u8], number: u64) -> Result<(), AllocError>
    ensures { OnOk result (lines.new.items ≡ lines.old.items ++ (word.now ++ decimal number ++ codes "\n")) }
{
    push_number(lines, word, number)?;
    lines.extend_from_slice(b"\n")
}

/// Adds what is said of a jump.
fn push_skip(lines: &mut Vec<u8>, from: u64, count: u64) -> Result<(), AllocError>
    ensures { OnOk result (lines.new.items ≡ lines.old.items
        ++ (codes "skip " ++ decimal from ++ codes " " ++ decimal count ++ codes "\n")) }
{
    push_number(lines, b"skip ", from)?;
    push_counted(lines, b" ", count)
}

/// Adds what is said of the record of this number, and the lines of its message.
fn push_says(
    alloc: Global,
    plan: &Plan,
    number: u64,
    what: &Record,
    lines: &mut Vec<u8>,
) -> Result<(), AllocError>
    requires legal { LegalPlan plan.now }
    requires kind { IsRecord what.now }
    ensures { OnOk result (lines.new.items ≡ lines.old.items ++ says plan.now number what.now) }
{
    match what {
        Record::Entry { sender, k, payload } => {
            push_entry(lines, number, *sender, *k)?;
            push_payload(alloc, plan, payload.as_slice(), lines)
        }
        Record::Apply { number, payload } => {
            push_counted(lines, b"apply ", *number)?;
            push_payload(alloc, plan, payload.as_slice(), lines)
        }
        Record::Skip { from, count } => push_skip(lines, *from, *count),
        Record::Negotiated => lines.extend_from_slice(b"negotiated\n"),
        Record::PeerFinished { last } => push_counted(lines, b"peer-finished ", *last),
        Record::Finish => lines.extend_from_slice(b"finish\n"),
    }
}

/// Adds the lines of the record of this number, from 1 on, with this moment, in milliseconds since 1970.
///
/// # Errors
/// Want of memory.
pub(crate) fn push_record(
    alloc: Global,
    plan: &Plan,
    seconds: &mut Seconds,
    number: u64,
    moment: u64,
    what: &Record,
    lines: &mut Vec<u8>,
) -> Result<(), AllocError>
    requires legal { LegalPlan plan.now }
    requires dated { IsDated (stamped moment what.now) }
    ensures { OnOk result (lines.new.items ≡ lines.old.items ++ record_lines plan.now number (stamped moment what.now)) }
{
    push_number(lines, b"record ", number)?;
    lines.extend_from_slice(b" at ")?;
    seconds.push_millis(lines, moment)?;
    lines.extend_from_slice(b" ")?;
    push_says(alloc, plan, number, what, lines)
}

/// Adds the line of the end.
///
/// # Errors
/// Want of memory.
pub(crate) fn push_end(lines: &mut Vec<u8>, end: End) -> Result<(), AllocError>
    ensures { OnOk result (lines.new.items ≡ lines.old.items ++ end_line end) }
{
    match end {
        End::Closed { at } => push_counted(lines, b"end at ", at),
        End::Damaged { at } => push_counted(lines, b"damaged at ", at),
    }
}

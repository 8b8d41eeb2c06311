//! The object of a record, and that of the end.

ghost use Rattle.std.specs.Prelude.{◌≡◌, ◌<◌, ◌^◌, ◌++◌, codes, OnOk};
ghost use Rattle.text_dates.specs.Dates.{millis_text};
ghost use Rattle.sbe_layout.specs.Legal.{LegalPlan};
ghost use Rattle.sbe_json.specs.Fields as texts;
ghost use Rattle.jr_record.specs.Records.{IsRecord};
ghost use Rattle.jr_record.specs.declared.record.Record.TheVariants as kinds;
ghost use Rattle.jr_dated.specs.Dated.{IsDated, stamped};
ghost use Rattle.jr_json.specs.Objects.{end_object_of, end_tokens, has_number, has_text, kind_tokens, record_object, record_tokens};

use crate::payloads::{write_member, write_number, write_payload};
use jr_record::Record;
use jr_stream::End;
use json::Writer;
use sbe_json::write_text;
use sbe_layout::Plan;
use std::alloc::{AllocError, Global};
use text_seconds::Seconds;

/// The bytes that there is room for first in the text of an object.
const OBJECT: usize = 512;

/// Writes the member of a moment.
fn write_moment(
    alloc: Global,
    writer: &mut Writer,
    seconds: &mut Seconds,
    moment: u64,
) -> Result<(), AllocError>
    requires { moment < 2 ^ 44 }
    ensures before { writer.new.before ≡ writer.old.before }
    ensures tokens { OnOk result (writer.new.tokens ≡ writer.old.tokens ++ has_text (codes "at") (texts.text_of (millis_text moment))) }
{
    let mut date = Vec::new(alloc);
    seconds.push_millis(&mut date, moment)?;
    writer.key("at")?;
    write_text(alloc, writer, date.as_slice())
}

/// Writes the members of an entry.
fn write_entry(
    alloc: Global,
    writer: &mut Writer,
    plan: &Plan,
    sender: u16,
    k: u64,
    payload: &[u8],
) -> Result<(), AllocError>
    requires legal { LegalPlan plan.now }
    requires kind { IsRecord (kinds.Entry sender k payload.now) }
    ensures before { writer.new.before ≡ writer.old.before }
    ensures tokens { OnOk result (writer.new.tokens ≡ writer.old.tokens ++ kind_tokens plan.now (kinds.Entry sender k payload.now)) }
{
    write_member(writer, "kind", "entry")?;
    writer.key("sender")?;
    writer.u64(u64::from(sender))?;
    write_number(writer, "k", k)?;
    write_payload(alloc, writer, plan, payload)
}

/// Writes the members of a message that was applied.
fn write_apply(
    alloc: Global,
    writer: &mut Writer,
    plan: &Plan,
    number: u64,
    payload: &[u8],
) -> Result<(), AllocError>
    requires legal { LegalPlan plan.now }
    requires kind { IsRecord (kinds.Apply number payload.now) }
    ensures before { writer.new.before ≡ writer.old.before }
    ensures tokens { OnOk result (writer.new.tokens ≡ writer.old.tokens ++ kind_tokens plan.now (kinds.Apply number payload.now)) }
{
    write_member(writer, "kind", "apply")?;
    write_number(writer, "number", number)?;
    write_payload(alloc, writer, plan, payload)
}

/// Writes the numbers of a jump.
fn write_range(writer: &mut Writer, from: u64, count: u64) -> Result<(), AllocError>
    ensures before { writer.new.before ≡ writer.old.before }
    ensures tokens { OnOk result (writer.new.tokens ≡ writer.old.tokens ++ has_number (codes "from") from ++ has_number (codes "count") count) }
{
    write_number(writer, "from", from)?;
    write_number(writer, "count", count)
}

/// Writes the members of a jump.
fn write_skip(writer: &mut Writer, from: u64, count: u64) -> Result<(), AllocError>
    ensures before { writer.new.before ≡ writer.old.before }
    ensures tokens { OnOk result (writer.new.tokens ≡ writer.old.tokens
        ++ has_text (codes "kind") (codes "skip") ++ has_number (codes "from") from ++ has_number (codes "count") count) }
{
    write_member(writer, "kind", "skip")?;
    write_range(writer, from, count)
}

/// Writes what a record says.
fn write_kind(
    alloc: Global,
    writer: &mut Writer,
    plan: &Plan,
    what: &Record,
) -> Result<(), AllocError>
    requires legal { LegalPlan plan.now }
    requires kind { IsRecord what.now }
    ensures before { writer.new.before ≡ writer.old.before }
    ensures tokens { OnOk result (writer.new.tokens ≡ writer.old.tokens ++ kind_tokens plan.now what.now) }
{
    match what {
        Record::Entry { sender, k, payload } => {
            write_entry(alloc, writer, plan, *sender, *k, payload.as_slice())
        }
        Record::Apply { number, payload } => {
            write_apply(alloc, writer, plan, *number, payload.as_slice())
        }
        Record::Skip { from, count } => write_skip(writer, *from, *count),
        Record::Negotiated => write_member(writer, "kind", "negotiated"),
        Record::PeerFinished { last } => {
            write_member(writer, "kind", "peer-finished")?;
            write_number(writer, "last", *last)
        }
        Record::Finish => write_member(writer, "kind", "finish"),
    }
}

/// Writes the object of a record.
fn write_record(
    alloc: Global,
    writer: &mut Writer,
    plan: &Plan,
    seconds: &mut Seconds,
    number: u64,
    moment: u64,
    what: &Record,
) -> Result<(), AllocError>
    requires legal { LegalPlan plan.now }
    requires dated { IsDated (stamped moment what.now) }
    ensures before { writer.new.before ≡ writer.old.before }
    ensures tokens { OnOk result (writer.new.tokens ≡ writer.old.tokens ++ record_tokens plan.now number (stamped moment what.now)) }
{
    writer.begin_object()?;
    write_number(writer, "record", number)?;
    write_moment(alloc, writer, seconds, moment)?;
    write_kind(alloc, writer, plan, what)?;
    writer.end_object()
}

/// Adds the object of the record of this number, from 1 on, with this moment, in milliseconds since 1970, on a line of its own.
///
/// # Errors
/// Want of memory.
pub fn push_object(
    alloc: Global,
    plan: &Plan,
    seconds: &mut Seconds,
    number: u64,
    moment: u64,
    what: &Record,
    lines: &mut Vec<u8>,
) -> Result<(), AllocError>
    requires legal { LegalPlan plan.now }
    requires dated { IsDated (stamped moment what.now) }
    ensures { OnOk result (lines.new.items ≡ lines.old.items ++ record_object plan.now number (stamped moment what.now)) }
{
    // A writer fills the room that its text has left, so that it has a text of its own and not all the lines.
    let mut writer = Writer::new(Vec::with_capacity(alloc, OBJECT)?);
    write_record(alloc, &mut writer, plan, seconds, number, moment, what)?;
    let object = writer.into_inner();
    lines.extend_from_slice(object.as_slice())?;
    lines.extend_from_slice(b"\n")
}

/// Writes the object of the end.
fn write_end(writer: &mut Writer, end: End) -> Result<(), AllocError>
    ensures before { writer.new.before ≡ writer.old.before }
    ensures tokens { OnOk result (writer.new.tokens ≡ writer.old.tokens ++ end_tokens end) }
{
    writer.begin_object()?;
    match end {
        End::Closed { at } => write_number(writer, "end", at)?,
        End::Damaged { at } => write_number(writer, "damaged", at)?,
    }
    writer.end_object()
}

/// Adds the object of the end, on a line of its own.
///
/// # Errors
/// Want of memory.
pub fn push_end_object(alloc: Global, end: End, lines: &mut Vec<u8>) -> Result<(), AllocError>
    ensures { OnOk result (lines.new.items ≡ lines.old.items ++ end_object_of end) }
{
    let mut writer = Writer::new(Vec::new(alloc));
    write_end(&mut writer, end)?;
    let object = writer.into_inner();
    lines.extend_from_slice(object.as_slice())?;
    lines.extend_from_slice(b"\n")
}

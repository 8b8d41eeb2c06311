//! The members of a payload.

ghost use Rattle.std.specs.Prelude.{◌≡◌, ◌≤◌, ◌^◌, ◌++◌, length, OnOk};
ghost use Rattle.sbe_layout.specs.Legal.{LegalPlan};
ghost use Rattle.sbe_grammar.specs.Reading.{message_in};
ghost use Rattle.sofh_frame.specs.Framing.{order_of};
ghost use Rattle.jr_record.specs.Records.{IsPayload};
ghost use Rattle.frame_text.specs.Held.{fault_words};
ghost use Rattle.jr_json.specs.Objects.{has_number, has_text, order_in, payload_tokens, read_as, told_in, unread};

use frame_text::push_fault;
use json::Writer;
use sbe_decode::{DecodeError, decode};
use sbe_grammar::{DecodeFault, read_fits};
use sbe_json::{text_of, write_message};
use sbe_layout::Plan;
use sofh_frame::Order;
use std::alloc::{AllocError, Global};

/// Writes a member that is a text.
pub fn write_member(writer: &mut Writer, name: &str, text: &str) -> Result<(), AllocError>
    ensures before { writer.new.before ≡ writer.old.before }
    ensures tokens { OnOk result (writer.new.tokens ≡ writer.old.tokens ++ has_text name.now text.now) }
{
    writer.key(name)?;
    writer.string(text)
}

/// Writes a member that is a number of 64 bits.
pub fn write_number(writer: &mut Writer, name: &str, number: u64) -> Result<(), AllocError>
    ensures before { writer.new.before ≡ writer.old.before }
    ensures tokens { OnOk result (writer.new.tokens ≡ writer.old.tokens ++ has_number name.now number) }
{
    writer.key(name)?;
    writer.quoted_u64(number)
}

/// The byte order that an encoding type names.
fn order_named(encoding: u16) -> Option<Order>
    ensures { result ≡ order_of encoding }
{
    match encoding {
        0xEB50 => Some(Order::Little),
        0x5BE0 => Some(Order::Big),
        _ => None,
    }
}

/// Writes a payload that spells no message of the schema.
fn write_unread(
    alloc: Global,
    writer: &mut Writer,
    payload: &[u8],
    why: &[u8],
) -> Result<(), AllocError>
    ensures before { writer.new.before ≡ writer.old.before }
    ensures tokens { OnOk result (writer.new.tokens ≡ writer.old.tokens ++ unread payload.now why.now) }
{
    let bytes = hex::encode(alloc, payload)?;
    write_member(writer, "payload", bytes.as_str())?;
    let words = text_of(alloc, why)?;
    write_member(writer, "fault", words.as_str())
}

/// Writes a payload whose message has a fault.
fn write_faulty(
    alloc: Global,
    writer: &mut Writer,
    payload: &[u8],
    fault: DecodeFault,
) -> Result<(), AllocError>
    ensures before { writer.new.before ≡ writer.old.before }
    ensures tokens { OnOk result (writer.new.tokens ≡ writer.old.tokens ++ unread payload.now (fault_words fault)) }
{
    let mut why = Vec::new(alloc);
    push_fault(&mut why, fault)?;
    write_unread(alloc, writer, payload, why.as_slice())
}

/// Writes a message by the schema, whose byte order it has.
fn write_read(
    alloc: Global,
    writer: &mut Writer,
    plan: &Plan,
    payload: &[u8],
    bytes: &[u8],
) -> Result<(), AllocError>
    requires legal { LegalPlan plan.now }
    requires short { length bytes.now ≤ 2 ^ 20 }
    ensures before { writer.new.before ≡ writer.old.before }
    ensures tokens { OnOk result (writer.new.tokens ≡ writer.old.tokens ++ read_as plan.now payload.now (message_in plan.now bytes.now)) }
{
    read_fits();
    match decode(alloc, plan, bytes) {
        Ok(message) => write_message(alloc, writer, plan, &message),
        Err(DecodeError::Fault(fault)) => write_faulty(alloc, writer, payload, fault),
        Err(DecodeError::Memory) => Err(AllocError),
    }
}

/// Writes a payload whose encoding type names this byte order, or none.
fn write_told(
    alloc: Global,
    writer: &mut Writer,
    plan: &Plan,
    payload: &[u8],
    order: Option<Order>,
) -> Result<(), AllocError>
    requires legal { LegalPlan plan.now }
    requires size { IsPayload payload.now }
    ensures before { writer.new.before ≡ writer.old.before }
    ensures tokens { OnOk result (writer.new.tokens ≡ writer.old.tokens ++ told_in plan.now payload.now order) }
{
    let (_, message) = payload.split_at(2);
    match order {
        Some(order) if order == plan.order => write_read(alloc, writer, plan, payload, message),
        Some(_) => write_unread(
            alloc,
            writer,
            payload,
            b"it is in the other byte order than the schema",
        ),
        None => write_unread(
            alloc,
            writer,
            payload,
            b"it begins with no encoding type of a message",
        ),
    }
}

/// The byte order that the encoding type of a payload names, if it names one (Simple Open Framing Header, "Encoding Type").
#[tactic(auto, unfolding(crate::specs::Objects::order_in))]
pub fn order_in(payload: &[u8]) -> Option<Order>
    requires { IsPayload payload.now }
    ensures { result ≡ order_in payload.now }
{
    order_named(u16::from_be_bytes([payload[0], payload[1]]))
}

/// Writes the members of a payload.
pub fn write_payload(
    alloc: Global,
    writer: &mut Writer,
    plan: &Plan,
    payload: &[u8],
) -> Result<(), AllocError>
    requires legal { LegalPlan plan.now }
    requires size { IsPayload payload.now }
    ensures before { writer.new.before ≡ writer.old.before }
    ensures tokens { OnOk result (writer.new.tokens ≡ writer.old.tokens ++ payload_tokens plan.now payload.now) }
{
    write_told(alloc, writer, plan, payload, order_in(payload))
}

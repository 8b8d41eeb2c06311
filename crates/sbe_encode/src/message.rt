//! Writing a message by a plan.

ghost use Rattle.std.specs.Prelude.{◌≡◌, ◌++◌, [], None, Some, Err, OnOk, OnErr, length};
ghost use Rattle.sbe_value.specs.declared.message.Message.{Message};
ghost use Rattle.sbe_grammar.specs.Canonical.{canonical, header_bytes, message_bytes};
ghost use Rattle.sbe_encode.specs.declared.fault.EncodeFault.{EncodeFault};
ghost use Rattle.sbe_encode.specs.declared.fault.EncodeError.TheVariants.{Fault};
ghost use Rattle.sbe_encode.specs.Faults.{encode_fault, header_fault, layout_fault, length_fault};
ghost use Rattle.sbe_encode.specs.Writes.{Writes};

use crate::blocks::write_block;
use crate::bytes::{can_count, write_count};
use crate::fault::{EncodeError, EncodeFault, shape_here};
use sbe_layout::{MessagePlan, Plan};
use sbe_prim::Primitive;
use sbe_value::{Bytes, Message};
use std::alloc::Global;

/// The most bytes of a message.
pub const LONGEST: usize = 16_384;

/// Writes a message behind `out`, at the plan's version (SBE 1.0, "Message structure"): its header, its root block, its
/// groups and its data. A message that may not be written is refused with its first fault in schema order; every
/// refusal leaves `out` as it was.
pub fn encode(
    alloc: Global,
    plan: &Plan,
    message: &Message,
    out: &mut Bytes,
) -> Result<(), EncodeError>
    ensures ok { OnOk result (out.new ≡ out.old ++ canonical plan.now message.now) }
    ensures faultless { OnOk result (encode_fault plan.now message.now ≡ None) }
    ensures fault { (f : EncodeFault) → result ≡ Err (Fault f) → encode_fault plan.now message.now ≡ Some f }
    ensures refused { OnErr result (out.new ≡ out.old) }
{
    let mut bytes = Vec::new(alloc);
    encode_into(alloc, plan, message, &mut bytes)?;
    out.extend_from_slice(bytes.as_slice())?;
    Ok(())
}

/// The bytes that [`encode`] writes, in a buffer whose room serves one message after another: what it had is dropped. After a
/// refusal it may hold anything.
pub fn encode_into(
    alloc: Global,
    plan: &Plan,
    message: &Message,
    bytes: &mut Vec<u8>,
) -> Result<(), EncodeError>
    ensures ok { OnOk result (bytes.new.items ≡ canonical plan.now message.now) }
    ensures faultless { OnOk result (encode_fault plan.now message.now ≡ None) }
    ensures fault { (f : EncodeFault) → result ≡ Err (Fault f) → encode_fault plan.now message.now ≡ Some f }
{
    bytes.clear();
    write_short(alloc, plan, message, bytes)
}

// Writes a message that is not too long.
fn write_short(
    alloc: Global,
    plan: &Plan,
    message: &Message,
    out: &mut Vec<u8>,
) -> Result<(), EncodeError>
    requires { out.old.items ≡ [] }
    ensures { Writes result [] out.new.items (canonical plan.now message.now) (encode_fault plan.now message.now) }
{
    let Some(layout) = plan.messages.find(message.template) else {
        return Err(shape_here(alloc));
    };
    write_message(alloc, plan, layout, message, out)?;
    if out.len() > LONGEST {
        return Err(EncodeError::Fault(EncodeFault::TooLong {
            length: out.len() as u64,
        }));
    }
    Ok(())
}

// Writes a message by its layout, whatever its length.
fn write_message(
    alloc: Global,
    plan: &Plan,
    layout: &MessagePlan,
    message: &Message,
    out: &mut Vec<u8>,
) -> Result<(), EncodeError>
    ensures { Writes result out.old.items out.new.items (message_bytes plan.now layout.now message.now) (layout_fault plan.now.listings layout.now message.now) }
{
    write_header(alloc, plan, layout, message.template, out)?;
    let listings = plan.listings.as_slice();
    write_block(
        alloc,
        plan.order,
        listings,
        &layout.root,
        &message.root,
        out,
    )
}

/// Writes the header of a message of a template.
pub fn write_header(
    alloc: Global,
    plan: &Plan,
    layout: &MessagePlan,
    template: u16,
    out: &mut Vec<u8>,
) -> Result<(), EncodeError>
    ensures { (m : Message) → m.template ≡ template → Writes result out.old.items out.new.items (header_bytes plan.now layout.now m) (header_fault layout.now) }
{
    if !can_count(Primitive::UInt16, layout.root.block_length) {
        return Err(shape_here(alloc));
    }
    write_count(Primitive::UInt16, plan.order, layout.root.block_length, out)?;
    write_count(Primitive::UInt16, plan.order, template as u128, out)?;
    write_count(Primitive::UInt16, plan.order, plan.id as u128, out)?;
    write_count(Primitive::UInt16, plan.order, plan.version as u128, out)?;
    Ok(())
}

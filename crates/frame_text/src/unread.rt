//! What a frame holds, shown as its bytes, with its fault.

ghost use Rattle.std.specs.Prelude.{◌≡◌, ◌≤◌, ◌^◌, ◌++◌, codes, decimal, length, OnOk};
ghost use Rattle.hex.specs.Hex.{encode_lower};
ghost use Rattle.sofh_frame.specs.Framing.{encoding_of};
ghost use Rattle.fixp_msgs.specs.Numbering.{payload_of};
ghost use Rattle.sbe_grammar.specs.declared.fault.DecodeFault.TheVariants as faults;
ghost use Rattle.frame_text.specs.Held.{fault_words, template_words, unread};

use itoa::Buffer;
use sbe_grammar::DecodeFault;
use sofh_frame::Order;
use std::alloc::AllocError;
use text_words::{push_hex, push_number};

/// The message of a frame, and the byte order that its encoding type names.
#[derive(Clone, Copy)]
pub struct Held<'a> {
    pub order: Order,
    pub message: &'a [u8],
}

/// The encoding type of a byte order (Simple Open Framing Header).
fn encoding_of(order: Order) -> u16
    ensures { result ≡ encoding_of order }
{
    match order {
        Order::Little => 0xeb50,
        Order::Big => 0x5be0,
    }
}

/// Adds the payload of a frame in hexadecimal.
#[tactic(auto, using(crate::proofs::Payloads::joined))]
fn push_payload(lines: &mut Vec<u8>, held: Held<'_>) -> Result<(), AllocError>
    requires short { length held.message.now ≤ 2 ^ 20 }
    ensures { OnOk result (lines.new.items ≡ lines.old.items ++ encode_lower (payload_of (record { order = held.entry.order; message = held.entry.message.now }))) }
{
    push_hex(lines, &encoding_of(held.order).to_be_bytes())?;
    push_hex(lines, held.message)
}

/// Adds what stands before the words of the fault.
fn push_front(lines: &mut Vec<u8>, held: Held<'_>) -> Result<(), AllocError>
    requires short { length held.message.now ≤ 2 ^ 20 }
    ensures { OnOk result (lines.new.items ≡ lines.old.items
        ++ (codes "payload " ++ encode_lower (payload_of (record { order = held.entry.order; message = held.entry.message.now })) ++ codes "\nfault ")) }
{
    lines.extend_from_slice(b"payload ")?;
    push_payload(lines, held)?;
    lines.extend_from_slice(b"\nfault ")
}

/// Adds a frame as its bytes, with these words.
pub fn push_unread(lines: &mut Vec<u8>, held: Held<'_>, why: &[u8]) -> Result<(), AllocError>
    requires short { length held.message.now ≤ 2 ^ 20 }
    ensures { OnOk result (lines.new.items ≡ lines.old.items ++ unread (record { order = held.entry.order; message = held.entry.message.now }) why.now) }
{
    push_front(lines, held)?;
    lines.extend_from_slice(why)?;
    lines.extend_from_slice(b"\nend\n")
}

/// Adds a frame whose template no session message has.
pub fn push_no_template(
    lines: &mut Vec<u8>,
    held: Held<'_>,
    template: u16,
) -> Result<(), AllocError>
    requires short { length held.message.now ≤ 2 ^ 20 }
    ensures { OnOk result (lines.new.items ≡ lines.old.items ++ unread (record { order = held.entry.order; message = held.entry.message.now }) (template_words template)) }
{
    push_front(lines, held)?;
    push_number(
        lines,
        b"no session message has template ",
        u64::from(template),
    )?;
    lines.extend_from_slice(b"\nend\n")
}

/// Adds a number of up to 128 bits in decimal.
fn push_wide(lines: &mut Vec<u8>, number: u128) -> Result<(), AllocError>
    ensures { OnOk result (lines.new.items ≡ lines.old.items ++ decimal number) }
{
    let mut digits = Buffer::new();
    lines.extend_from_slice(digits.format(number).as_bytes())
}

/// Adds that a block is too short.
fn push_short_block(
    lines: &mut Vec<u8>,
    at: u64,
    found: u64,
    needed: u128,
) -> Result<(), AllocError>
    ensures { OnOk result (lines.new.items ≡ lines.old.items ++ fault_words (faults.ShortBlock at found needed)) }
{
    push_number(lines, b"the block at byte ", at)?;
    push_number(lines, b" of the message has ", found)?;
    lines.extend_from_slice(b" bytes, and its fields take ")?;
    push_wide(lines, needed)?;
    Ok(())
}

/// Adds that what begins at a place is not whole.
fn push_truncated(lines: &mut Vec<u8>, at: u64) -> Result<(), AllocError>
    ensures { OnOk result (lines.new.items ≡ lines.old.items ++ fault_words (faults.Truncated at)) }
{
    push_number(lines, b"what begins at byte ", at)?;
    lines.extend_from_slice(b" of the message is not whole")?;
    Ok(())
}

/// Adds why the bytes of a message spell none.
///
/// # Errors
/// Want of memory.
pub fn push_fault(lines: &mut Vec<u8>, fault: DecodeFault) -> Result<(), AllocError>
    ensures { OnOk result (lines.new.items ≡ lines.old.items ++ fault_words fault) }
{
    match fault {
        DecodeFault::Truncated { at } => push_truncated(lines, at),
        DecodeFault::OtherSchema { id } => {
            push_number(lines, b"the message is of schema ", u64::from(id))
        }
        DecodeFault::UnknownTemplate { id } => push_number(
            lines,
            b"the schema has no message of template ",
            u64::from(id),
        ),
        DecodeFault::ShortBlock { at, found, needed } => {
            push_short_block(lines, at, found, needed)
        }
    }
}

/// Adds a frame whose message the schema does not have.
pub fn push_faulty(
    lines: &mut Vec<u8>,
    held: Held<'_>,
    fault: DecodeFault,
) -> Result<(), AllocError>
    requires short { length held.message.now ≤ 2 ^ 20 }
    ensures { OnOk result (lines.new.items ≡ lines.old.items ++ unread (record { order = held.entry.order; message = held.entry.message.now }) (fault_words fault)) }
{
    push_front(lines, held)?;
    push_fault(lines, fault)?;
    lines.extend_from_slice(b"\nend\n")
}

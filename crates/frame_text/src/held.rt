//! The lines of what a frame holds: a session message, or an application message by a schema.

ghost use Rattle.std.specs.Prelude.{◌≡◌, ◌≤◌, ◌^◌, ◌++◌, length, OnOk};
ghost use Rattle.sbe_layout.specs.Legal.{LegalPlan};
ghost use Rattle.sbe_prim.specs.declared.Order.TheVariants.{Little};
ghost use Rattle.fixp_msgs.specs.declared.frames.FrameKind.TheVariants.{Session};
ghost use Rattle.fixp_msgs.specs.Header.{kind_of, version_in};
ghost use Rattle.frame_text.specs.Held.{application_lines, held_lines, session_lines};

use crate::unread::{Held, push_faulty, push_no_template, push_unread};
use fixp_msgs::{FrameKind, MsgFault, kind, read, spelled_is_found};
use fixp_text::push_session;
use sbe_decode::DecodeError;
use sbe_layout::Plan;
use sbe_text::{Draft, print_named_wire};
use std::alloc::{AllocError, Global};

/// Adds the lines of an application message: by the schema, or the bytes of its frame with their fault.
///
/// # Errors
/// Want of memory.
pub fn push_application(
    alloc: Global,
    plan: &Plan,
    held: Held<'_>,
    lines: &mut Vec<u8>,
) -> Result<(), AllocError>
    requires legal { LegalPlan plan.now }
    requires short { length held.message.now ≤ 2 ^ 20 }
    ensures { OnOk result (lines.new.items ≡ lines.old.items ++ application_lines plan.now (record { order = held.entry.order; message = held.entry.message.now })) }
{
    if held.order != plan.order {
        return push_unread(
            lines,
            held,
            b"it is in the other byte order than the schema",
        );
    }
    let mut draft = Draft::new(alloc);
    match print_named_wire(alloc, plan, held.message, &mut draft, lines) {
        Ok(()) => Ok(()),
        Err(DecodeError::Fault(fault)) => push_faulty(lines, held, fault),
        Err(DecodeError::Memory) => Err(AllocError),
    }
}

/// The version in the header of a message (SBE 1.0, "Message header").
fn version_in(message: &[u8]) -> u16
    requires { 8 ≤ length message.now }
    ensures { result ≡ version_in message.now }
{
    u16::from_le_bytes([message[6], message[7]])
}

/// Adds the lines of a session message.
fn push_session_message(lines: &mut Vec<u8>, held: Held<'_>) -> Result<(), AllocError>
    requires header { 8 ≤ length held.message.now }
    requires little { held.order ≡ Little }
    requires session { kind_of Little held.message.now ≡ Session }
    requires short { length held.message.now ≤ 2 ^ 20 }
    ensures { OnOk result (lines.new.items ≡ lines.old.items ++ session_lines (record { order = held.entry.order; message = held.entry.message.now })) }
{
    spelled_is_found();
    match read(held.message) {
        Ok(message) => push_session(lines, version_in(held.message), &message),
        Err(MsgFault::BadTemplate { id }) => push_no_template(lines, held, id),
        Err(MsgFault::Short) => push_unread(
            lines,
            held,
            b"the block or the data of the session message are not whole",
        ),
    }
}

/// Adds the lines of what a frame holds.
///
/// # Errors
/// Want of memory.
#[tactic(auto, unfolding(crate::specs::Held::held_lines))]
pub fn push_held(
    alloc: Global,
    plan: &Plan,
    held: Held<'_>,
    lines: &mut Vec<u8>,
) -> Result<(), AllocError>
    requires legal { LegalPlan plan.now }
    requires header { 8 ≤ length held.message.now }
    requires short { length held.message.now ≤ 2 ^ 20 }
    ensures { OnOk result (lines.new.items ≡ lines.old.items ++ held_lines plan.now (record { order = held.entry.order; message = held.entry.message.now })) }
{
    match kind(held.order, held.message) {
        FrameKind::App => push_application(alloc, plan, held, lines),
        FrameKind::Session => push_session_message(lines, held),
        FrameKind::Wrong => push_unread(
            lines,
            held,
            b"it is a session message, which is little-endian",
        ),
    }
}

//! Decoding a whole message.

ghost use Rattle.std.specs.Prelude.{◌≡◌, Err, IfOk};
ghost use Rattle.sbe_value.specs.declared.message.Message.{Message};
ghost use Rattle.sbe_grammar.specs.declared.fault.DecodeFault.{DecodeFault};
ghost use Rattle.sbe_grammar.specs.Reading.{message_in};
ghost use Rattle.sbe_grammar.specs.Spelling.{Spells};
ghost use Rattle.sbe_decode.specs.declared.error.DecodeError.TheVariants.{Fault};
ghost use Rattle.sbe_decode.specs.Answers.{Answers};
ghost use Rattle.sbe_decode.specs.Walks.{read_message};

use crate::blocks::read_block;
use crate::bytes::Reading;
use crate::error::DecodeError;
use crate::header::{layout_by, read_header};
use sbe_grammar::read_is_spelled;
use sbe_layout::Plan;
use sbe_value::Message;
use std::alloc::Global;

/// The message that the bytes spell by the plan of its schema (SBE 1.0, "Message structure"). It copies each text and
/// each datum once. Bytes behind the message's data are not looked at.
///
/// An error is the first fault of the bytes, or want of memory.
pub fn decode(alloc: Global, plan: &Plan, message: &[u8]) -> Result<Message, DecodeError>
    // The message, or the fault, is the one that the grammar's reading tells.
    ensures told { Answers result (message_in plan.now message.now) }
    // The bytes spell the message.
    ensures spelled { IfOk result (Spells plan.now message.now) }
    // Bytes with a fault spell no message.
    ensures unspelled { (f : DecodeFault) → result ≡ Err (Fault f) → (m : Message) → Spells plan.now message.now m → ⊥ }
{
    read_is_spelled();
    read_message(alloc, plan, message)
}

fn read_message(alloc: Global, plan: &Plan, message: &[u8]) -> Result<Message, DecodeError>
    ensures { Answers result (read_message plan.now message.now) }
{
    let (header, left) = read_header(plan.order, message)?;
    let layout = layout_by(plan, header)?;
    let reading = Reading {
        order: plan.order,
        version: header.version,
        total: message.len(),
    };
    let (root, _) = read_block(alloc, reading, &layout.root, header.size as u64, left)?;
    Ok(Message {
        template: header.template,
        root,
    })
}

//! The header of a message, and the layout that it asks for.

ghost use Rattle.std.specs.Prelude.{◌≡◌, length};
ghost use Rattle.sbe_prim.specs.declared.Primitive.TheVariants.{UInt16};
ghost use Rattle.sbe_grammar.specs.Parts.{unsigned};
ghost use Rattle.sbe_decode.specs.Answers.{Tells};
ghost use Rattle.sbe_decode.specs.Walks.{header_of, read_header, layout_by};

use crate::bytes::{read_bytes, unsigned};
use sbe_grammar::DecodeFault;
use sbe_layout::{MessagePlan, Plan};
use sbe_prim::{Order, Primitive};

/// The four numbers of the message header (SBE 1.0, "Message header").
#[derive(Clone, Copy)]
pub struct Header {
    /// The length of the root block in bytes.
    pub size: u16,
    /// The template's id.
    pub template: u16,
    /// The schema's id.
    pub id: u16,
    /// The version of the message.
    pub version: u16,
}

/// The header of a message, and the bytes behind it.
pub fn read_header(order: Order, message: &[u8]) -> Result<(Header, &[u8]), DecodeFault>
    ensures { Tells (λ x. (header_of x.0, x.1.now)) result (read_header order message.now) }
{
    let (header, left) = read_bytes(message.len(), 8, message)?;
    let (size, rest) = header.split_at(2);
    let (template, rest) = rest.split_at(2);
    let (id, version) = rest.split_at(2);
    Ok((
        Header {
            size: number(order, size),
            template: number(order, template),
            id: number(order, id),
            version: number(order, version),
        },
        left,
    ))
}

// The number of two bytes.
fn number(order: Order, bytes: &[u8]) -> u16
    requires { length bytes.now ≡ 2 }
    ensures { result ≡ unsigned order UInt16 bytes.now }
{
    unsigned(order, Primitive::UInt16, bytes) as u16
}

/// The layout of the messages of a header's template, by the plan of its schema.
pub fn layout_by(plan: &Plan, header: Header) -> Result<&MessagePlan, DecodeFault>
    ensures { Tells (λ layout. layout.now) result (layout_by plan.now (header_of header)) }
{
    if header.id != plan.id {
        return Err(DecodeFault::OtherSchema { id: header.id });
    }
    match plan.messages.find(header.template) {
        None => Err(DecodeFault::UnknownTemplate {
            id: header.template,
        }),
        Some(layout) => Ok(layout),
    }
}

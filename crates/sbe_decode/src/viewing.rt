//! A view of a message, which reads fields where they stand.

ghost use Rattle.std.specs.Prelude.{◌≡◌, ◌<◌, length, IfSome, slice_get};
ghost use Rattle.sbe_grammar.specs.Reading.{message_in};
ghost use Rattle.sbe_decode.specs.Shown.{Shows};

use crate::bytes::Reading;
use crate::data::skip_data;
use crate::header::{layout_by, read_header};
use crate::items::read_whole;
use crate::skip::skip_groups;
use crate::value::{FieldView, value_in};
use sbe_grammar::DecodeFault;
use sbe_layout::{MessagePlan, Plan};
use std::marker::Model;

/// A message that its bytes spell, read where it stands. Contracts see it as the message.
#[derive(Drop)]
pub struct MessageView<'a> {
    plan: &'a Plan,
    message: &'a [u8],
    template: u16,
    version: u16,
    layout: &'a MessagePlan,
    block: &'a [u8],
}

impl<'a> Model for MessageView<'a> {
    ghost use Rattle.sbe_value.specs.declared.message.Message.{Message};
    ghost use Rattle.sbe_value.specs.contracts.message.Message as row;

    ghost Value = { Message };

    ghost coded = { row.the_row.coded };

    ghost use Rattle.sbe_grammar.specs.Reading.{message_in};
    ghost use Rattle.sbe_decode.specs.Views.{message_told, IsSeen};

    ghost view = { λ v. message_told (message_in v.plan.now v.message.now) };

    ghost invariant = { λ v. IsSeen v.plan.now v.message.now v.template v.version v.layout.now v.block.now };
}

/// A view of the message that the bytes spell by the plan of its schema. It takes no memory, and one pass over the
/// message, which finds any fault that decoding would find.
pub fn view<'a>(plan: &'a Plan, message: &'a [u8]) -> Result<MessageView<'a>, DecodeFault>
    ensures told { result ≡ message_in plan.now message.now }
{
    let (header, left) = read_header(plan.order, message)?;
    let layout = layout_by(plan, header)?;
    let reading = Reading {
        order: plan.order,
        version: header.version,
        total: message.len(),
    };
    let root = &layout.root;
    let (block, left) = read_whole(reading, header.size as u64, root.marks.as_slice(), left)?;
    let left = skip_groups(reading, root.groups.as_slice(), left)?;
    let _end = skip_data(reading, root.vars.as_slice(), left)?;
    Ok(MessageView {
        plan,
        message,
        template: header.template,
        version: header.version,
        layout,
        block,
    })
}

impl<'a> MessageView<'a> {
    /// The template's id.
    pub fn template(&self) -> u16
        ensures { result ≡ self.now.template }
    {
        self.template
    }

    /// The number of the items of the root block: its fields that are no constants, a composite by its members.
    pub fn field_count(&self) -> usize
        ensures { result ≡ length self.now.root.items }
    {
        self.layout.root.items.len()
    }

    /// The value of the root block's item at a place in schema order, from 0; `field_count` tells how many there are.
    pub fn field(&self, i: usize) -> FieldView<'a>
        requires within { i < length self.now.root.items }
        ensures shown { IfSome (slice_get self.now.root.items i) (Shows result) }
    {
        let reading = Reading {
            order: self.plan.order,
            version: self.version,
            total: self.message.len(),
        };
        value_in(reading, self.block, &self.layout.root.items.as_slice()[i]).field()
    }
}

//! A report as a payload. Relies on the encoder of messages, which by a law finds no fault in a report that lies within its ranges.

ghost use Rattle.std.specs.Prelude.{◌≡◌, ◌++◌, [], ◌∷◌, IfOk, OnOk};
ghost use Rattle.sbe_value.specs.declared.item.Item.TheVariants.{Num};
ghost use Rattle.fixp_msgs.specs.Payload.{IsApplication};
ghost use Rattle.order_desk.specs.Schema.{IsOrderPlan};
ghost use Rattle.order_desk.specs.Reports.{InRange, tree_of_report, report_bytes};

use crate::report::Report;
use sbe_encode::{EncodeError, encode};
use sbe_layout::Plan;
use sbe_value::{Block, Bytes, Datums, Groups, Item, Items, Message};
use std::alloc::{AllocError, Global};

/// The payload of a report, by a plan of the order schema: the encoding type 0xEB50 and the message.
///
/// # Errors
/// Want of memory.
pub fn write_report(alloc: Global, plan: &Plan, report: &Report) -> Result<Bytes, AllocError>
    requires plan { IsOrderPlan plan.now }
    requires range { InRange report.now }
    ensures bytes { IfOk result (λ b. b ≡ report_bytes plan.now report.now) }
    ensures application { IfOk result IsApplication }
{
    let message = tree_of(alloc, report)?;
    let mut payload = Bytes::from_slice(alloc, &[0xEB, 0x50])?;
    match encode(alloc, plan, &message, &mut payload) {
        Ok(()) => Ok(payload),
        Err(EncodeError::Memory) => Err(AllocError),
        Err(EncodeError::Fault(_)) => unreachable!(),
    }
}

// A report as a tree of values.
fn tree_of(alloc: Global, report: &Report) -> Result<Message, AllocError>
    ensures { IfOk result (λ m. m ≡ tree_of_report report.now) }
{
    let mut items = Items::new(alloc);
    items.push(Item::Num(report.cl_id as i128))?;
    items.push(Item::Num(report.kind.number() as i128))?;
    items.push(Item::Num(report.kind.code() as i128))?;
    items.push(Item::Num(report.desk as i128))?;
    items.push(Item::Num(report.quantity as i128))?;
    items.push(Item::Num(report.price as i128))?;
    Ok(Message {
        template: 3,
        root: Block {
            items,
            groups: Groups::from(Vec::new(alloc)),
            vars: Datums::new(alloc),
        },
    })
}

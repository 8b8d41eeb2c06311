//! The schema of orders as a value (this project's profile), and the plan of its messages. Relies on the check of schemas, which by a law
//! finds no fault in this one.

ghost use Rattle.std.specs.Prelude.{◌≡◌, IfOk};
ghost use Rattle.order_desk.specs.Schema.{IsVersion, IsOrderPlan, order_schema, order_plan};

use crate::messages::order_messages;
use crate::types::order_types;
use sbe_layout::{Plan, lay_out};
use sbe_prim::Order;
use sbe_schema::{Schema, SchemaKind, check};
use std::alloc::{AllocError, Global};

/// The schema of orders: id 100, little-endian, with NewOrder (template 1), Cancel (2) and Report (3). From version 2 on an order has
/// an account, each of its parties a desk, and there are tags.
pub fn order_schema(alloc: Global, version: u16) -> Result<Schema, AllocError>
    ensures schema { IfOk result (λ s. s ≡ order_schema version) }
{
    let types = order_types(alloc)?;
    let messages = order_messages(alloc, version)?;
    Ok(Schema {
        id: 100,
        version,
        order: Order::Little,
        types,
        messages,
    })
}

/// The plan of the messages of the order schema, at version 1 or 2.
pub fn order_plan(alloc: Global, version: u16) -> Result<Plan, AllocError>
    requires version { IsVersion version }
    ensures plan { IfOk result (λ p. p ≡ order_plan version) }
    ensures of_orders { IfOk result IsOrderPlan }
{
    let schema = order_schema(alloc, version)?;
    match check(alloc, schema) {
        Ok(checked) => lay_out(alloc, &checked),
        Err((_, fault)) => match fault.kind {
            SchemaKind::Memory => Err(AllocError),
            _ => unreachable!(),
        },
    }
}

//! What is asked of all desks at once.
ghost use Rattle.order_gate.specs.Reported.{IsPrice};

use sbe_layout::Plan;
use sbe_value::Payloads;

/// Messages that were applied, to be answered by the desks.
#[derive(Clone, Copy)]
pub(crate) struct Call<'a> {
    /// The plan of the order schema.
    pub(crate) plan: &'a Plan,
    /// The reference price, in ten-thousandths.
    pub(crate) reference: i64,
    /// How many desks there are.
    pub(crate) desks: u16,
    /// How many messages were applied before these, modulo the desks.
    pub(crate) turn: u16,
    pub(crate) payloads: &'a Payloads,
    pub(crate) ghost ranged: { IsPrice reference },
}

//! The orders that rest, and the maps that find them. A call takes steps that grow with the logarithm of the number of orders, and one
//! more look-up for each order that is met.

ghost use Rattle.std.specs.Prelude.{◌≡◌, ◌+◌, ◌-◌, ◌<◌, List, [], ◌∷◌, ◌++◌, None, IfOk, OnOk, OnErr, option_map};
ghost use Rattle.std.specs.List.{filter};
ghost use Rattle.std.specs.Ordering.{nat_cmp};
ghost use Rattle.std.specs.BTreeMap.{get};
ghost use Rattle.std.specs.BTreeSet.{IsOrdered};
ghost use Rattle.order_book.specs.Book.{order_with, settled, all_settled, without, fills_of};
ghost use Rattle.order_book.specs.Index.{place_cmp, is_met, met, walked, replaced};

use crate::entries::{BookOrder, Fill};
use crate::place::{Place, end_of, front_of, place_of};
use std::alloc::{AllocError, Global};
use std::collections::{BTreeMap, BTreeSet};
use std::marker::Model;

/// The orders that rest, in the order in which they came.
#[derive(Drop)]
pub struct Shelf {
    // Each order under the number with which it came.
    orders: BTreeMap<u64, BookOrder>,
    // That number by the order's identifier.
    arrivals: BTreeMap<u64, u64>,
    queue: BTreeSet<Place>,
    next: u64,
}

impl Model for Shelf {
    ghost use Rattle.std.specs.Prelude.{List};
    ghost use Rattle.std.specs.BTreeMap.{values};
    ghost use Rattle.order_book.specs.declared.entries.BookOrder.{BookOrder as Entry};
    ghost use Rattle.order_book.specs.Index.{Indexed};

    ghost Value = { List Entry };

    ghost view = { λ s. values s.orders };

    ghost invariant = { λ s. Indexed s.orders s.arrivals s.queue s.next };
}

impl Shelf {
    /// No order.
    pub fn new(alloc: Global) -> Self
        ensures { result ≡ [] }
    {
        Shelf {
            orders: BTreeMap::new(alloc),
            arrivals: BTreeMap::new(alloc),
            queue: BTreeSet::new(alloc),
            next: 0,
        }
    }

    /// The order with an identifier.
    pub fn order(&self, cl_id: u64) -> Option<BookOrder>
        ensures { result ≡ order_with cl_id self.now }
    {
        match self.arrivals.get(&cl_id) {
            Some(arrival) => self.orders.get(arrival).copied(),
            None => None,
        }
    }

    /// What an order that comes in trades with those that rest, and at which prices.
    pub fn fills(&self, alloc: Global, incoming: &BookOrder) -> Result<Vec<Fill>, AllocError>
        ensures { IfOk result (λ fills. fills.items ≡ fills_of incoming.now self.now) }
    {
        fills_in(alloc, &self.orders, &self.queue, incoming)
    }

    /// Puts an order behind all others.
    pub fn put(&mut self, order: &BookOrder) -> Result<(), AllocError>
        requires { order_with order.now.cl_id self.old ≡ None }
        ensures ok { OnOk result (self.new ≡ self.old ++ order.now ∷ []) }
        ensures err { OnErr result (self.new ≡ self.old) }
    {
        let arrival = self.next;
        // Two to the power of 64 orders never come; the number is a limit like that of memory.
        let Some(next) = arrival.checked_add(1) else {
            return Err(AllocError);
        };
        let place = place_of(arrival, order);
        self.arrivals.insert(order.cl_id, arrival)?;
        if self.queue.insert(place).is_err() {
            self.arrivals.remove(&order.cl_id);
            return Err(AllocError);
        }
        if self.orders.insert(arrival, *order).is_err() {
            self.queue.remove(&place);
            self.arrivals.remove(&order.cl_id);
            return Err(AllocError);
        }
        self.next = next;
        Ok(())
    }

    /// Takes out the order with an identifier.
    pub fn take(&mut self, cl_id: u64)
        ensures { self.new ≡ without cl_id self.old }
    {
        let Some(arrival) = self.arrivals.get(&cl_id).copied() else {
            return;
        };
        let Some(order) = self.orders.remove(&arrival) else {
            return;
        };
        self.arrivals.remove(&cl_id);
        self.queue.remove(&place_of(arrival, &order));
    }

    /// Leaves so much of the order with an identifier.
    fn leave(&mut self, cl_id: u64, quantity: u32)
        ensures { self.new ≡ replaced cl_id quantity self.old }
    {
        let Some(arrival) = self.arrivals.get(&cl_id).copied() else {
            return;
        };
        let Some(mut order) = self.orders.get(&arrival).copied() else {
            return;
        };
        order.quantity = quantity;
        match self.orders.insert(arrival, order) {
            Ok(_) => {}
            Err(_) => unreachable!(),
        }
    }

    /// Takes a match from the order that was met.
    pub fn settle(&mut self, fill: &Fill)
        ensures { self.new ≡ settled fill.now self.old }
    {
        let Some(order) = self.order(fill.cl_id) else {
            return;
        };
        if order.quantity > fill.quantity {
            self.leave(fill.cl_id, order.quantity - fill.quantity);
        } else {
            self.take(fill.cl_id);
        }
    }

    /// Takes all these matches from the orders that were met.
    pub fn settle_all(&mut self, fills: &[Fill])
        ensures { self.new ≡ all_settled fills.now self.old }
    {
        for fill in fills {
            self.settle(fill);
        }
    }
}

// Goes along the places at which an order may rest that this one meets, the best first, while something is left.
fn fills_in(
    alloc: Global,
    orders: &BTreeMap<u64, BookOrder>,
    queue: &BTreeSet<Place>,
    incoming: &BookOrder,
) -> Result<Vec<Fill>, AllocError>
    ensures fills { IfOk result (λ fills. fills.items ≡ walked incoming.now.quantity (met (get nat_cmp orders.now) (filter (is_met incoming.now) queue.now.keys))) }
    ensures ordered { IsOrdered place_cmp queue.now }
{
    let mut fills = Vec::new(alloc);
    let mut left = incoming.quantity;
    for place in queue.range(front_of(incoming)..=end_of(incoming)) {
        if left == 0 {
            return Ok(fills);
        }
        if let Some(resting) = orders.get(&place.arrival) {
            fills.push(Fill {
                cl_id: resting.cl_id,
                quantity: left.min(resting.quantity),
                price: resting.price,
            })?;
            left = left.saturating_sub(resting.quantity);
        }
    }
    Ok(fills)
}

//! The book.

ghost use Rattle.std.specs.Prelude.{◌≡◌, List, [], Option, option_map, IfOk, OnOk, OnErr};
ghost use Rattle.std.specs.Result.{result_ok};
ghost use Rattle.order_book.specs.Book.{order_with, reports_of, book_after};
ghost use Rattle.order_book.specs.Laws.{IsUncrossed};

use crate::shelf::Shelf;
use order_desk::{Order, OrderFault, Report};
use std::alloc::{AllocError, Global};
use std::marker::Model;

/// A price-time order book over any number of symbols. It is seen as the list of the orders that rest, in the order in which they came.
#[derive(Drop)]
pub struct Book {
    alloc: Global,
    shelf: Shelf,
}

impl Model for Book {
    ghost use Rattle.std.specs.Prelude.{List};
    ghost use Rattle.order_book.specs.declared.entries.BookOrder.{BookOrder};
    ghost use Rattle.order_book.specs.Laws.{IsBook};

    ghost Value = { List BookOrder };

    ghost view = { λ b. b.shelf };

    ghost invariant = { λ b. IsBook b.shelf };
}

impl Book {
    /// A book in which nothing rests. It takes no memory.
    pub fn new(alloc: Global) -> Self
        ensures { result ≡ [] }
    {
        Book {
            alloc,
            shelf: Shelf::new(alloc),
        }
    }

    /// Takes an order, or what is none, and gives its reports in their order. Want of memory is the only error, and leaves the book
    /// as it was.
    pub fn on_order(&mut self, order: &Result<Order, OrderFault>) -> Result<Vec<Report>, AllocError>
        ensures reports { IfOk result (λ reports. reports.items ≡ reports_of self.old (result_ok order.now)) }
        ensures next { OnOk result (self.new ≡ book_after self.old (result_ok order.now)) }
        ensures same { OnErr result (self.new ≡ self.old) }
        ensures uncrossed { IsUncrossed self.new }
    {
        self.shelf.on_order(self.alloc, order)
    }

    /// How many are left of the order that rests under an identifier; none where no order does.
    pub fn resting(&self, cl_id: u64) -> Option<u32>
        ensures { result ≡ option_map (λ order. order.quantity) (order_with cl_id self.now) }
    {
        self.shelf.order(cl_id).map(|order| order.quantity)
    }
}

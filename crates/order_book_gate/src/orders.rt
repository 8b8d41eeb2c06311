//! Messages, taken as orders into a book.
ghost use Rattle.std.specs.Prelude.{◌≡◌, [], ◌∷◌, ◌++◌, IfOk, OnOk, All};
ghost use Rattle.std.specs.List.{AllByRecursion};
ghost use Rattle.fixp_msgs.specs.Payload.{IsApplication};
ghost use Rattle.order_desk.specs.Schema.{IsOrderPlan};
ghost use Rattle.order_book.specs.Laws.{IsRested};
ghost use Rattle.order_book_gate.specs.Plan.{answers, resting_behind};

use crate::writing::written;
use order_book::{Book, book_in_range};
use order_desk::read_order;
use sbe_layout::Plan;
use sbe_value::{Bytes, Payloads};
use std::alloc::{AllocError, Global};

/// Takes a message as an order: the payloads of the book's reports on it.
fn take_order(
    alloc: Global,
    plan: &Plan,
    book: &mut Book,
    payload: &[u8],
) -> Result<Payloads, AllocError>
    requires plan { IsOrderPlan plan.now }
    requires rested { AllByRecursion IsRested book.old }
    ensures rested { AllByRecursion IsRested book.new }
    ensures book { IfOk result (λ list. book.new ≡ resting_behind plan.now book.old (payload.now ∷ [])) }
    ensures reports { IfOk result (λ list. list ≡ answers plan.now book.old (payload.now ∷ [])) }
    ensures applications { IfOk result (λ list. All IsApplication list) }
{
    book_in_range();
    let order = read_order(plan, payload);
    let reports = book.on_order(&order)?;
    written(alloc, plan, reports.as_slice())
}

/// Takes messages as orders, one after another: the payloads of the book's reports on them.
pub(crate) fn take_orders(
    alloc: Global,
    plan: &Plan,
    book: &mut Book,
    payloads: &[Bytes],
) -> Result<Vec<Bytes>, AllocError>
    requires plan { IsOrderPlan plan.now }
    requires rested { AllByRecursion IsRested book.old }
    ensures rested { AllByRecursion IsRested book.new }
    ensures book { IfOk result (λ list. book.new ≡ resting_behind plan.now book.old payloads.now) }
    ensures reports { IfOk result (λ list. list.items ≡ answers plan.now book.old payloads.now) }
    ensures applications { IfOk result (λ list. All IsApplication list.items) }
{
    let mut reports = Vec::new(alloc);
    for payload in payloads {
        let list = take_order(alloc, plan, book, payload.as_slice())?;
        let mut list = Vec::from(list);
        reports.append(&mut list)?;
    }
    Ok(reports)
}

//! What becomes of an order: its reports, and the orders that rest behind it.

ghost use Rattle.std.specs.Prelude.{◌≡◌, [], ◌∷◌, Some, None, Ok, IfOk, OnOk, OnErr};
ghost use Rattle.std.specs.Result.{result_ok};
ghost use Rattle.order_book.specs.Book.{order_with, fills_of, left_of, entered, told, filled, both_filled, entry_reports, admitted, reports_of_new, reports_of_cancel, reports_of, book_with, without, book_after};

use crate::entries::{BookOrder, Fill};
use crate::shelf::Shelf;
use order_desk::{NewOrder, Order, OrderFault, RejectCode, Report, ReportKind, refused};
use std::alloc::{AllocError, Global};

/// The book reports as this desk.
const DESK: u8 = 1;

impl Shelf {
    /// What is reported of an order, or of what is none, and what rests behind it.
    pub fn on_order(
        &mut self,
        alloc: Global,
        order: &Result<Order, OrderFault>,
    ) -> Result<Vec<Report>, AllocError>
        ensures reports { IfOk result (λ reports. reports.items ≡ reports_of self.old (result_ok order.now)) }
        ensures next { OnOk result (self.new ≡ book_after self.old (result_ok order.now)) }
        ensures same { OnErr result (self.new ≡ self.old) }
    {
        match order {
            Ok(Order::New(new)) => self.on_new(alloc, new),
            Ok(Order::Cancel { cl_id, orig }) => self.on_cancel(alloc, *cl_id, *orig),
            Err(_) => alone(alloc, refused(DESK, 0, RejectCode::NotAnOrder)),
        }
    }

    fn on_new(&mut self, alloc: Global, new: &NewOrder) -> Result<Vec<Report>, AllocError>
        ensures reports { IfOk result (λ reports. reports.items ≡ reports_of_new self.old new.now.cl_id (admitted self.old new.now)) }
        ensures next { OnOk result (self.new ≡ book_with self.old (admitted self.old new.now)) }
        ensures same { OnErr result (self.new ≡ self.old) }
    {
        match self.admitted(new) {
            Ok(order) => self.enter(alloc, &order),
            Err(why) => alone(alloc, refused(DESK, new.cl_id, why)),
        }
    }

    // All that may want memory comes before the first change.
    fn enter(&mut self, alloc: Global, order: &BookOrder) -> Result<Vec<Report>, AllocError>
        requires { order_with order.now.cl_id self.old ≡ None }
        ensures reports { IfOk result (λ reports. reports.items ≡ entry_reports order.now (fills_of order.now self.old)) }
        ensures next { OnOk result (self.new ≡ entered order.now (fills_of order.now self.old) self.old) }
        ensures same { OnErr result (self.new ≡ self.old) }
    {
        let fills = self.fills(alloc, order)?;
        let reports = entry_reports(alloc, order, &fills)?;
        let left = left_of(order.quantity, &fills);
        if left > 0 {
            let mut resting = *order;
            resting.quantity = left;
            self.put(&resting)?;
        }
        self.settle_all(&fills);
        Ok(reports)
    }

    fn on_cancel(&mut self, alloc: Global, cl_id: u64, orig: u64) -> Result<Vec<Report>, AllocError>
        ensures reports { IfOk result (λ reports. reports.items ≡ reports_of_cancel cl_id (order_with orig self.old)) }
        ensures next { OnOk result (self.new ≡ without orig self.old) }
        ensures same { OnErr result (self.new ≡ self.old) }
    {
        let report = match self.order(orig) {
            Some(order) => told(ReportKind::Expired, &order),
            None => refused(DESK, cl_id, RejectCode::NotResting),
        };
        let reports = alone(alloc, report)?;
        self.take(orig);
        Ok(reports)
    }
}

fn told(kind: ReportKind, order: &BookOrder) -> Report
    ensures { result ≡ told kind order.now }
{
    Report {
        cl_id: order.cl_id,
        kind,
        desk: DESK,
        quantity: order.quantity,
        price: order.price,
    }
}

fn filled(cl_id: u64, fill: &Fill) -> Report
    ensures { result ≡ filled cl_id fill.now }
{
    Report {
        cl_id,
        kind: ReportKind::Filled,
        desk: DESK,
        quantity: fill.quantity,
        price: fill.price,
    }
}

// A report that stands alone.
fn alone(alloc: Global, report: Report) -> Result<Vec<Report>, AllocError>
    ensures { IfOk result (λ reports. reports.items ≡ report ∷ []) }
{
    let mut reports = Vec::new(alloc);
    reports.push(report)?;
    Ok(reports)
}

// The reports of an order that was accepted and has these matches.
fn entry_reports(
    alloc: Global,
    order: &BookOrder,
    fills: &[Fill],
) -> Result<Vec<Report>, AllocError>
    ensures { IfOk result (λ reports. reports.items ≡ entry_reports order.now fills.now) }
{
    let mut reports = Vec::new(alloc);
    reports.push(told(ReportKind::Accepted, order))?;
    for fill in fills {
        reports.push(filled(order.cl_id, fill))?;
        reports.push(filled(fill.cl_id, fill))?;
    }
    Ok(reports)
}

// What is left of a quantity behind these matches.
fn left_of(quantity: u32, fills: &[Fill]) -> u32
    ensures { result ≡ left_of quantity fills.now }
{
    let mut left = quantity;
    for fill in fills {
        left = left.saturating_sub(fill.quantity);
    }
    left
}

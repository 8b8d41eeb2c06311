//! The desk: what is reported of an order. It is immediate-or-cancel: an order trades at once, all of it, against a reference price,
//! or expires.

ghost use Rattle.std.specs.Prelude.{◌≡◌, ◌≤◌, [], ◌∷◌, None};
ghost use Rattle.std.specs.Result.{result_ok};
ghost use Rattle.order_desk.specs.Reports.{refusal_of_side, refusal_of, crosses, refused, report_of, reports_by, reports_of, list_of};

use crate::order::{NewOrder, Order, OrderFault, Side};
use crate::report::{RejectCode, Report, ReportKind, ReportList};

/// The greatest quantity of an order.
const MOST: u32 = 1_000_000;

/// What a desk, by its number and its reference price, reports of an order: that it is accepted and then filled or expired, or
/// that it is refused. Whatever is no order is refused.
pub fn reports(desk: u16, reference: i64, order: &Result<Order, OrderFault>) -> ReportList
    requires desk { (1 ≤ desk) × (desk ≤ 16) }
    ensures list { list_of result ≡ reports_of desk reference (result_ok order.now) }
{
    let desk = desk as u8;
    match order {
        Err(_) => alone(refused(desk, 0, RejectCode::NotAnOrder)),
        Ok(Order::Cancel { cl_id, .. }) => alone(refused(desk, *cl_id, RejectCode::NothingKept)),
        Ok(Order::New(order)) => match refusal(order) {
            Some(why) => alone(refused(desk, order.cl_id, why)),
            None => traded(desk, reference, order),
        },
    }
}

/// The first rule that an order breaks: its quantity is from 1 to 1,000,000, its price above 0, and its side one of the two.
pub fn refusal(order: &NewOrder) -> Option<RejectCode>
    ensures first { result ≡ refusal_of order.now }
{
    if order.quantity == 0 || order.quantity > MOST {
        return Some(RejectCode::Quantity);
    }
    if order.price <= 0 {
        return Some(RejectCode::Price);
    }
    match order.side {
        None => Some(RejectCode::Side),
        Some(_) => None,
    }
}

/// The report that an order or a request is refused.
pub fn refused(desk: u8, cl_id: u64, why: RejectCode) -> Report
    ensures report { result ≡ refused desk cl_id why }
{
    Report {
        cl_id,
        kind: ReportKind::Rejected(why),
        desk,
        quantity: 0,
        price: 0,
    }
}

// A report that stands alone.
fn alone(report: Report) -> ReportList
    ensures { list_of result ≡ report ∷ [] }
{
    ReportList {
        first: report,
        second: None,
    }
}

// The reports of an order that breaks no rule.
fn traded(desk: u8, reference: i64, order: &NewOrder) -> ReportList
    ensures { list_of result ≡ reports_by desk reference order.now None }
{
    let end = if crosses(order.side, order.price, reference) {
        ReportKind::Filled
    } else {
        ReportKind::Expired
    };
    ReportList {
        first: report_of(desk, ReportKind::Accepted, order),
        second: Some(report_of(desk, end, order)),
    }
}

fn report_of(desk: u8, kind: ReportKind, order: &NewOrder) -> Report
    ensures { result ≡ report_of desk kind order.now }
{
    Report {
        cl_id: order.cl_id,
        kind,
        desk,
        quantity: order.quantity,
        price: order.price,
    }
}

// A buy at the reference or above, a sell at the reference or below.
fn crosses(side: Option<Side>, price: i64, reference: i64) -> bool
    ensures { result ≡ crosses side price reference }
{
    match side {
        None => false,
        Some(Side::Buy) => price >= reference,
        Some(Side::Sell) => price <= reference,
    }
}

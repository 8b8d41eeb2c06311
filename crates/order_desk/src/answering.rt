//! What a desk answers a payload with: the payloads of its reports. Relies on the law that reports lie within their ranges.

ghost use Rattle.std.specs.Prelude.{◌≡◌, ◌≤◌, IfOk, map};
ghost use Rattle.std.specs.List.{AllByRecursion};
ghost use Rattle.order_desk.specs.Schema.{IsOrderPlan};
ghost use Rattle.order_desk.specs.Orders.{order_in};
ghost use Rattle.order_desk.specs.Reports.{InRange, reports_of, report_bytes, list_of};
ghost use Rattle.order_desk.specs.Plans.{answers};

use crate::desk::reports;
use crate::laws::reports_in_range;
use crate::reading::read_order;
use crate::report::ReportList;
use crate::writing::write_report;
use sbe_layout::Plan;
use sbe_value::Payloads;
use std::alloc::{AllocError, Global};

/// The payloads that a desk, by its number and its reference price, sends for one payload, by a plan of the order schema.
///
/// # Errors
/// Want of memory.
pub fn answers(
    alloc: Global,
    plan: &Plan,
    desk: u16,
    reference: i64,
    payload: &[u8],
) -> Result<Payloads, AllocError>
    requires plan { IsOrderPlan plan.now }
    requires desk { (1 ≤ desk) × (desk ≤ 16) }
    ensures answers { IfOk result (λ payloads. payloads ≡ answers plan.now desk reference payload.now) }
{
    reports_in_range();
    let list = reports_on(plan, desk, reference, payload);
    written(alloc, plan, &list)
}

// What the desk reports of the payload.
#[tactic(auto, using(crate::proofs::Ranged::read_back))]
fn reports_on(plan: &Plan, desk: u16, reference: i64, payload: &[u8]) -> ReportList
    requires { (1 ≤ desk) × (desk ≤ 16) }
    ensures { list_of result ≡ reports_of desk reference (order_in plan.now payload.now) }
{
    let order = read_order(plan, payload);
    reports(desk, reference, &order)
}

// The payloads of one order's reports.
fn written(alloc: Global, plan: &Plan, list: &ReportList) -> Result<Payloads, AllocError>
    requires plan { IsOrderPlan plan.now }
    requires range { AllByRecursion InRange (list_of list.now) }
    ensures { IfOk result (λ payloads. payloads ≡ map (report_bytes plan.now) (list_of list.now)) }
{
    let mut payloads = Payloads::new(alloc);
    payloads.push(write_report(alloc, plan, &list.first)?)?;
    if let Some(second) = &list.second {
        payloads.push(write_report(alloc, plan, second)?)?;
    }
    Ok(payloads)
}

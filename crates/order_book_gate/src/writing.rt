//! Reports as payloads.
ghost use Rattle.std.specs.Prelude.{◌≡◌, IfOk, All, map};
ghost use Rattle.std.specs.List.{AllByRecursion};
ghost use Rattle.fixp_msgs.specs.Payload.{IsApplication};
ghost use Rattle.order_desk.specs.Schema.{IsOrderPlan};
ghost use Rattle.order_desk.specs.Reports.{InRange, report_bytes};

use order_desk::{Report, write_report};
use sbe_layout::Plan;
use sbe_value::Payloads;
use std::alloc::{AllocError, Global};

/// The payloads of reports, in their order.
///
/// # Errors
/// Want of memory.
pub(crate) fn written(
    alloc: Global,
    plan: &Plan,
    reports: &[Report],
) -> Result<Payloads, AllocError>
    requires plan { IsOrderPlan plan.now }
    requires range { AllByRecursion InRange reports.now }
    ensures bytes { IfOk result (λ list. list ≡ map (report_bytes plan.now) reports.now) }
    ensures applications { IfOk result (λ list. All IsApplication list) }
{
    let mut list = Payloads::new(alloc);
    for report in reports {
        list.push(write_report(alloc, plan, report)?)?;
    }
    Ok(list)
}

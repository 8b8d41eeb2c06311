//! All lines of a text, one after another.

ghost use Rattle.std.specs.Prelude.{◌≡◌, ℕ, ◌<◌, [], length, map, slice_index_or, IfOk, IfErr};
ghost use Rattle.plan_values.specs.Plans.{payloads_of};
ghost use Rattle.plan_values.specs.declared.plan.Plan as plan;
ghost use Rattle.plan_text.specs.Plans.{HasPlans, IsFaultOf};

use crate::fault::PlanFault;
use crate::line::add_line;
use plan_values::Plan;
use std::alloc::{AllocError, Global};
use text_words::first_line;

/// So many plans without payloads.
fn empty_plans(alloc: Global, senders: u16) -> Result<Vec<Plan>, AllocError>
    ensures many { IfOk result (λ plans. length plans.items ≡ senders) }
    ensures empty { IfOk result (λ plans. (i : ℕ) (d : plan.Plan) → i < senders → payloads_of (slice_index_or plans.items i d) ≡ []) }
{
    let mut plans = Vec::with_capacity(alloc, usize::from(senders))?;
    for _sender in 0..senders {
        plans.push(Plan::new(alloc))?;
    }
    Ok(plans)
}

/// The plans of a text for so many senders, from sender 1 on. Each line is a sender in decimal without a leading zero, a blank
/// and the payload of an application message in hexadecimal of either case. A carriage return before a line feed and a last
/// line feed that is missing are taken.
///
/// # Errors
/// `Line` with the number, from 1, of the first line that is none, and `Memory`.
pub fn read_plans(alloc: Global, senders: u16, text: &[u8]) -> Result<Vec<Plan>, PlanFault>
    ensures ok { IfOk result (λ plans. HasPlans senders text.now (map payloads_of plans.items)) }
    ensures err { IfErr result (λ fault. IsFaultOf senders text.now fault) }
{
    let mut plans = empty_plans(alloc, senders)?;
    let mut count = 0u64;
    let mut left = text;
    while let Some((line, rest)) = first_line(left) {
        if !add_line(alloc, plans.as_mut_slice(), line)? {
            return Err(PlanFault::Line { line: count + 1 });
        }
        count += 1;
        left = rest;
    }
    Ok(plans)
}

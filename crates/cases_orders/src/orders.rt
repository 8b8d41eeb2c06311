//! Cases of orders and desks: reads `orders.txt`, and prints what each payload is read as, and what a desk reports of it, in words and as
//! payloads. A case is VERSION DESK REFERENCE: PAYLOAD, in hexadecimal; another line stands as it is.

ghost use Rattle.std.specs.Prelude.{◌≤◌, IfOk};
ghost use Rattle.order_desk.specs.Schema.{IsOrderPlan};

use cases_words::{bytes, digits, halves, number};
use order_desk::{answers, order_plan, read_order, reports};
use sbe_layout::Plan;
use std::alloc::{AllocError, Global};
use std::rt::Files;
use std::{fs, io};

/// The plan of a version, by its word.
fn plan_of(alloc: Global, version: &str) -> Result<Plan, AllocError>
    ensures { IfOk result IsOrderPlan }
{
    if version == "2" {
        order_plan(alloc, 2)
    } else {
        order_plan(alloc, 1)
    }
}

/// The bytes that the words of a text spell, in hexadecimal.
fn payload_of(alloc: Global, words: &str) -> Result<Vec<u8>, AllocError> {
    let mut payload = Vec::new(alloc);
    for word in words.split(" ") {
        payload.extend_from_slice(bytes(alloc, word)?.as_slice())?;
    }
    Ok(payload)
}

/// What a payload is read as, and what a desk reports of it.
fn add_reports(
    plan: &Plan,
    desk: u16,
    reference: i64,
    payload: &[u8],
    told: &mut String,
) -> Result<(), AllocError>
    requires desk { (1 ≤ desk) × (desk ≤ 16) }
{
    let order = read_order(plan, payload);
    let list = reports(desk, reference, &order);
    let first = list.first;
    write!(told, "{order:?}\n{first:?}\n")?;
    if let Some(second) = list.second {
        write!(told, "{second:?}\n")?;
    }
    Ok(())
}

/// The payloads of these reports.
fn add_payloads(
    alloc: Global,
    plan: &Plan,
    desk: u16,
    reference: i64,
    payload: &[u8],
    told: &mut String,
) -> Result<(), AllocError>
    requires plan { IsOrderPlan plan.now }
    requires desk { (1 ≤ desk) × (desk ≤ 16) }
{
    let list = answers(alloc, plan, desk, reference, payload)?;
    for answer in list.as_slice() {
        let digits = digits(alloc, answer.as_slice())?;
        write!(told, "{digits}\n")?;
    }
    Ok(())
}

/// What a case shows.
fn add_case(alloc: Global, head: &str, words: &str, told: &mut String) -> Result<(), AllocError> {
    let (version, rest) = halves(head);
    let (desk, reference) = halves(rest);
    let plan = plan_of(alloc, version)?;
    let desk = number(desk).clamp(1, 16) as u16;
    let reference = number(reference).min(1_000_000_000) as i64;
    let payload = payload_of(alloc, words)?;
    add_reports(&plan, desk, reference, payload.as_slice(), told)?;
    add_payloads(alloc, &plan, desk, reference, payload.as_slice(), told)
}

/// Prints what the section shows.
pub fn print<R: Files + Print + AllocGlobal>(rt: &R) -> io::Result<()> {
    let text = fs::read_to_string(rt, "orders.txt")?;
    for line in text.lines() {
        rt.println(line)?;
        if let Some((head, words)) = line.split_once(": ") {
            if !line.starts_with("#") {
                let mut told = String::new(rt.alloc());
                add_case(rt.alloc(), head, words, &mut told)?;
                rt.print(told)?;
            }
        }
    }
    Ok(())
}

//! Outboxes on disks in memory, and the plans of their senders.
ghost use Rattle.std.specs.Prelude.{◌≡◌, ◌≤◌, false, vec_len, IfSome};
ghost use Rattle.jr_kept.specs.Outbox.{is_broken};

use crate::made::{Log, WIDE, formatted, opened};
use gate_staff::Plan;
use gw_fakes::Pick;
use gw_outside::{Bytes, Payloads};
use jr_dated::Limits;
use jr_kept::Outbox;
use std::alloc::{AllocError, Global};

/// The room of each disk, in bytes.
const ROOM: usize = 16_384;

/// The most device calls that an opening is looked for at.
const MOST: u64 = 64;

/// An application message of 8 bytes behind its encoding type: its template is the sender, its version its place in the plan.
const fn message(sender: u8, place: u8) -> [u8; 10] {
    [0xEB, 0x50, 0, 0, sender, 0, 0x64, 0, place, 0]
}

/// Adds the messages of a plan.
fn add_messages(
    alloc: Global,
    sender: u8,
    length: u8,
    payloads: &mut Payloads,
) -> Result<(), AllocError> {
    for place in 0..length {
        payloads.push(Bytes::from_slice(alloc, &message(sender, place))?)?;
    }
    Ok(())
}

/// The plan of a sender: so many messages, numbered from 1 on. None where memory runs out or a message is not an application's.
fn plan(alloc: Global, sender: u8, length: u8) -> Option<Plan> {
    let mut payloads = Payloads::new(alloc);
    add_messages(alloc, sender, length, &mut payloads).ok()?;
    Plan::of(payloads).ok()
}

/// The plans of these lengths: sender 1's is the first one here, and the last one of the list.
fn plans(alloc: Global, lengths: &str) -> Option<Vec<Plan>> {
    let mut list = Vec::new(alloc);
    let mut sender = 0u8;
    for length in lengths.split(" ") {
        sender = sender.saturating_add(1);
        list.push(plan(alloc, sender, length.parse::<u8>().unwrap_or(0))?)
            .ok()?;
    }
    list.reverse();
    Some(list)
}

/// An empty outbox on a disk that lets so many calls pass behind its formatting; None where it is refused.
fn fused(alloc: Global, limits: Limits, calls: u64) -> Option<Outbox<Log>>
    ensures sound { IfSome result (λ box. is_broken box ≡ false) }
{
    let mut disk = formatted(alloc, ROOM)?;
    disk.fuse(calls);
    opened(alloc, disk, limits)
}

/// How many calls of a disk the opening of an empty outbox makes.
fn opening_calls(alloc: Global) -> u64 {
    for calls in 0..MOST {
        if fused(alloc, WIDE, calls).is_some() {
            return calls;
        }
    }
    MOST
}

/// The outbox opened again after a stop that leaves this of its disk; None where it is refused.
pub fn reopened(alloc: Global, outbox: Outbox<Log>, pick: Pick) -> Option<Outbox<Log>> {
    opened(alloc, outbox.into_journal().close().stop(pick), WIDE)
}

/// An outbox with these limits on a disk that lets so many calls pass behind those of its opening, and how many messages the plan of
/// each sender has, in words.
#[derive(Clone, Copy)]
pub struct Case<'a> {
    pub limits: Limits,
    pub fuse: u64,
    pub lengths: &'a str,
}

/// An outbox, and the plans of those that are to submit to it.
#[derive(Drop)]
pub struct Setting {
    pub outbox: Outbox<Log>,
    pub plans: Vec<Plan>,
}

/// What a case begins with; None where a call is refused, or there are more than five plans.
pub fn ready(alloc: Global, case: Case<'_>) -> Option<Setting>
    ensures sound { IfSome result (λ r. is_broken r.outbox ≡ false) }
    ensures few { IfSome result (λ r. vec_len r.plans ≤ 5) }
{
    let plans = plans(alloc, case.lengths)?;
    if plans.len() > 5 {
        return None;
    }
    let calls = opening_calls(alloc).saturating_add(case.fuse);
    let outbox = fused(alloc, case.limits, calls)?;
    Some(Setting { outbox, plans })
}

/// The sender of an entry, and the place of its message in the plan; None where it is not read.
fn entry(outbox: &mut Outbox<Log>, number: u64) -> Option<(u8, u8)> {
    if number == 0 || number > outbox.front() {
        return None;
    }
    let entry = outbox.stable(number).ok()?;
    match entry.payload() {
        [_, _, _, _, sender, _, _, _, place, _] => Some((*sender, *place)),
        _ => None,
    }
}

/// Whether the entries of each sender are its messages in the plan's order.
pub fn in_order(outbox: &mut Outbox<Log>) -> bool {
    let mut next = [0u8; 17];
    let front = outbox.front();
    for place in 0..front {
        let Some((sender, place)) = entry(outbox, place + 1) else {
            return false;
        };
        let sender = usize::from(sender).min(16);
        if next[sender] != place {
            return false;
        }
        next[sender] = place.wrapping_add(1);
    }
    true
}

//! What the senders of an end do: their plans grow as a script goes on, and all that was added is submitted at once.

ghost use Rattle.std.specs.Prelude.{◌≡◌, ◌+◌, ◌<◌, ◌≤◌, All, length, vec_len, IsTrue};
ghost use Rattle.gate_staff.specs.Runs.{IsReady};
ghost use Rattle.gate_staff.specs.Seats.{Seated};
ghost use Rattle.cmd_script.specs.Script.{IsCount};
ghost use Rattle.gw_rehearse.specs.Standing.{AreDone, KeepsPasses, UsesFirst};
ghost use Rattle.order_staff.specs.Staffs.{sent_by};

use crate::journals::Log;
use crate::payloads::message_of;
use gate_senders::Gate;
use gate_staff::{OpenDoor, Plan, Sender, count_done, run_seated};
use jr_kept::CloseFault;
use std::alloc::{AllocError, Global};
use std::sync::Wait;
use std::thread::Threads;

/// Adds the next messages of a sender to its plan, so many of them, or what is left of all that it sends.
///
/// # Errors
/// Want of memory.
fn add_next(
    alloc: Global,
    version: u8,
    plan: &mut Plan,
    sender: u16,
    all: u64,
    count: u64,
) -> Result<(), AllocError>
    requires sender { sender ≤ 16 }
    requires few { all ≤ 100000 }
{
    let first = plan.len();
    let last = all.min(first.saturating_add(count));
    for place in first..last {
        let message = message_of(alloc, version, sender, place + 1)?;
        if !plan.add(message)? {
            unreachable!()
        }
    }
    Ok(())
}

/// Adds the next messages of each sender to its plan.
///
/// # Errors
/// Want of memory.
fn add_to_each(
    alloc: Global,
    version: u8,
    senders: &mut [Sender<Log>],
    messages: &[u64],
    count: u64,
) -> Result<(), AllocError>
    requires few { length senders.old ≤ 16 }
    requires counts { All IsCount messages.now }
    ensures passes { KeepsPasses senders.old senders.new }
{
    for place in 0..senders.len() {
        if place < messages.len() {
            let plan = &mut senders[place].plan;
            add_next(
                alloc,
                version,
                plan,
                place as u16 + 1,
                messages[place],
                count,
            )?;
        }
    }
    Ok(())
}

/// Has each sender submit its next messages, `count` of them or what is left, all senders at once. Answers whether all were accepted.
///
/// # Errors
/// Want of memory.
#[tactic(auto, using(crate::proofs::Driving::kept_seated))]
pub(crate) fn submit_next<R: Threads + Wait + Sync>(
    alloc: Global,
    version: u8,
    gate: &Gate<Log>,
    senders: &mut Vec<Sender<Log>>,
    messages: &[u64],
    count: u64,
    rt: &R,
) -> Result<bool, AllocError>
    requires few { vec_len senders.old ≤ 16 }
    requires counts { All IsCount messages.now }
    requires seated { Seated gate.now senders.old.items (vec_len senders.old + 1) }
    ensures seated { Seated gate.now senders.new.items (vec_len senders.new + 1) }
    ensures count { vec_len senders.new ≡ vec_len senders.old }
{
    add_to_each(alloc, version, senders.as_mut_slice(), messages, count)?;
    Ok(run_seated(gate, senders, &OpenDoor, rt).is_ok())
}

/// Has each sender go on behind what the outbox has of it, as its plan does.
///
/// # Errors
/// Want of memory.
#[tactic(auto, using(crate::proofs::Driving::kept_seated))]
pub(crate) fn go_on<R: Wait>(
    alloc: Global,
    version: u8,
    gate: &Gate<Log>,
    senders: &mut Vec<Sender<Log>>,
    messages: &[u64],
    rt: &R,
) -> Result<(), AllocError>
    requires few { vec_len senders.old ≤ 16 }
    requires counts { All IsCount messages.now }
    requires seated { Seated gate.now senders.old.items (vec_len senders.old + 1) }
    ensures seated { Seated gate.now senders.new.items (vec_len senders.new + 1) }
    ensures count { vec_len senders.new ≡ vec_len senders.old }
{
    count_done(gate, senders, rt);
    add_done(alloc, version, senders.as_mut_slice(), messages)
}

/// Adds to the plan of each sender the messages that it has done.
///
/// # Errors
/// Want of memory.
fn add_done(
    alloc: Global,
    version: u8,
    senders: &mut [Sender<Log>],
    messages: &[u64],
) -> Result<(), AllocError>
    requires few { length senders.old ≤ 16 }
    requires counts { All IsCount messages.now }
    ensures passes { KeepsPasses senders.old senders.new }
{
    for place in 0..senders.len() {
        if place < messages.len() {
            let done = senders[place].done;
            let plan = &mut senders[place].plan;
            add_next(
                alloc,
                version,
                plan,
                place as u16 + 1,
                messages[place],
                done,
            )?;
        }
    }
    Ok(())
}

/// Whether each sender has done all that it sends.
fn are_done(senders: &[Sender<Log>], messages: &[u64]) -> bool
    ensures { IsTrue result → AreDone senders.now messages.now }
{
    if senders.len() != messages.len() {
        return false;
    }
    for place in 0..senders.len() {
        if senders[place].done != messages[place] {
            return false;
        }
    }
    true
}

/// Whether the outbox has all that each sender sends, and no more of it.
pub(crate) fn have_sent<R: Wait>(
    gate: &Gate<Log>,
    senders: &mut Vec<Sender<Log>>,
    messages: &[u64],
    rt: &R,
) -> bool
    requires seated { Seated gate.now senders.old.items (vec_len senders.old + 1) }
    ensures seated { Seated gate.now senders.new.items (vec_len senders.new + 1) }
    ensures count { vec_len senders.new ≡ vec_len senders.old }
    ensures sent { IsTrue result → sent_by senders.new.items ≡ messages.now }
{
    count_done(gate, senders, rt);
    are_done(senders.as_slice(), messages)
}

/// Adds the mark behind all messages, by the pass of the first sender. Answers whether it stands.
fn finish_by_first<R: Wait>(gate: &Gate<Log>, senders: &mut [Sender<Log>], rt: &R) -> bool
    requires some { 0 < length senders.old }
    requires ready { All (λ s. IsReady gate.now s) senders.old }
    ensures ready { All (λ s. IsReady gate.now s) senders.new }
    ensures first { UsesFirst senders.old senders.new }
{
    let answer = gate.finish(&mut senders[0].pass, rt);
    matches!(answer, Ok(()) | Err(CloseFault::Closed))
}

/// Adds the mark behind all messages, where there are senders. Answers whether it stands where it has to.
#[tactic(auto, using(crate::proofs::Driving::used_seated))]
pub(crate) fn finish<R: Wait>(gate: &Gate<Log>, senders: &mut Vec<Sender<Log>>, rt: &R) -> bool
    requires seated { Seated gate.now senders.old.items (vec_len senders.old + 1) }
    ensures seated { Seated gate.now senders.new.items (vec_len senders.new + 1) }
    ensures count { vec_len senders.new ≡ vec_len senders.old }
{
    senders.is_empty() || finish_by_first(gate, senders.as_mut_slice(), rt)
}

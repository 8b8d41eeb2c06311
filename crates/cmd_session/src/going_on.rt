//! INPUT beside what OUTBOX holds: a session goes on where the plan of each sender has, at the places of the entries that the outbox has of it,
//! the payloads of these, and nothing behind them where the outbox has its finish.

ghost use Rattle.std.specs.Prelude.{◌≡◌, ◌⊎◌, ℕ, ◌≤◌, ◌<◌, ◌^◌, false, List, map, length, vec_len, Option, IfOk, IfErr};
ghost use Rattle.std.specs.Option.{ForSome};
ghost use Rattle.gw_outside.specs.Faults.{HasRisen};
ghost use Rattle.plan_values.specs.Plans.{payloads_of};
ghost use Rattle.plan_text.specs.Plans.{HasPlans};
ghost use Rattle.jr_dated.specs.declared.faults.FetchFault.TheVariants as fetch;
ghost use Rattle.jr_kept.specs.Outbox as outboxes;
ghost use Rattle.cmd_session.specs.Inputs.{ArePlanned, RefusesPlans};
ghost use Rattle.cmd_session.specs.Lived.{KeepsRecords, OpensOutbox, GoOn};
ghost use Rattle.cmd_session.specs.Steps.{RefusedInput, RefusedPlans};

use crate::boxes::close_outbox;
use crate::inputs::{Given, read_input};
use cmd_base::{Bad, JournalCause, Status, Which};
use gw_outside::{Disk, Source};
use jr_dated::FetchFault;
use jr_kept::Outbox;
use jr_segments::SegJournal;
use plan_outbox::first_past;
use plan_values::Plan;
use std::alloc::Global;

/// The status where an entry of an outbox was not read.
fn not_read(fault: FetchFault) -> Status
    requires sound { fault ≡ fetch.Broken → ⊥ }
    ensures cause { result ≡ Status.JournalFault → fault ≡ fetch.Fault }
    ensures refused { (senders : ℕ) (input told : Option (List ℕ)) → ((at : ℕ) → fault ≡ fetch.Changed at → ForSome told (λ _. ⊥)) → RefusesPlans senders input told result }
{
    match fault {
        FetchFault::Broken => unreachable!(),
        FetchFault::Memory => Status::Memory,
        FetchFault::Fault => Status::JournalFault,
        FetchFault::Changed { at } => Status::JournalBad {
            which: Which::Outbox,
            cause: JournalCause::Changed { at },
        },
    }
}

/// The outbox, as it was, where the plans of a text go on from it.
///
/// # Errors
/// The disk comes back with each: `Message` with the first line whose payload may not stand in its sender's plan, `JournalBad` with the first
/// entry that the disk gives otherwise than it was written, `JournalFault` where a call of the disk failed, and `Memory`.
fn compared<D: Disk>(
    alloc: Global,
    given: &Given,
    outbox: Outbox<SegJournal<D>>,
) -> Result<Outbox<SegJournal<D>>, (D, Status)>
    requires sound { outboxes.is_broken outbox ≡ false }
    requires few { outboxes.front_of outbox < 2 ^ 40 }
    requires has { HasPlans (length given.now.plans.items) given.now.text.items (map payloads_of given.now.plans.items) }
    ensures goes_on { IfOk result (λ box. (told : Option (List ℕ)) → OpensOutbox told outbox → GoOn (map payloads_of given.now.plans.items) told box) }
    ensures opened { IfOk result (λ box. (told : Option (List ℕ)) → OpensOutbox told outbox → OpensOutbox told box) }
    ensures sound { IfOk result (λ box. outboxes.is_broken box ≡ false) }
    ensures limit { IfOk result (λ box. outboxes.limits_of box ≡ outboxes.limits_of outbox) }
    ensures few { IfOk result (λ box. outboxes.front_of box < 2 ^ 40) }
    ensures never_falls { IfOk result (λ box. outboxes.faults_of outbox ≤ outboxes.faults_of box) }
    ensures refused { IfErr result (λ e. (input told : Option (List ℕ)) → ForSome input (λ text. text ≡ given.now.text.items) → OpensOutbox told outbox
        → RefusesPlans (length given.now.plans.items) input told e.1) }
    ensures kept { IfErr result (λ e. (before : D) → OpensOutbox (D.told before) outbox → KeepsRecords D.told D.may_leave before e.0) }
    ensures refused_never_falls { IfErr result (λ e. outboxes.faults_of outbox ≤ D.faults e.0) }
    ensures cause { IfErr result (λ e. e.1 ≡ Status.JournalFault → HasRisen (outboxes.faults_of outbox) (D.faults e.0)) }
{
    let mut outbox = outbox;
    match first_past(
        alloc,
        given.text.as_slice(),
        given.plans.as_slice(),
        &mut outbox,
    ) {
        Ok(None) => Ok(outbox),
        Ok(Some(line)) => Err((close_outbox(outbox), Status::Message(Bad::Line { line }))),
        Err(fault) => Err((close_outbox(outbox), not_read(fault))),
    }
}

/// The plans of so many senders in INPUT, which go on from the outbox, and that outbox, as it was.
///
/// # Errors
/// The status, and the disk of the outbox: `Message` with the first line of INPUT that gives no payload to a sender, or, where each gives one,
/// with the first whose payload may not stand in its sender's plan, or where INPUT is too long; `JournalBad` with the first entry of the outbox
/// that its disk gives otherwise than it was written; `InputFault`, `JournalFault` and `Memory`.
pub fn plans_on<S: Source, D: Disk>(
    alloc: Global,
    senders: u8,
    input: &mut S,
    outbox: Outbox<SegJournal<D>>,
) -> Result<(Vec<Plan>, Outbox<SegJournal<D>>), (Status, D)>
    requires sound { outboxes.is_broken outbox ≡ false }
    requires few { outboxes.front_of outbox < 2 ^ 40 }
    ensures planned { IfOk result (λ r. ArePlanned senders (S.left input.old) (map payloads_of r.0.items)) }
    ensures many { IfOk result (λ r. vec_len r.0 ≡ senders) }
    ensures goes_on { IfOk result (λ r. (told : Option (List ℕ)) → OpensOutbox told outbox → GoOn (map payloads_of r.0.items) told r.1) }
    ensures opened { IfOk result (λ r. (told : Option (List ℕ)) → OpensOutbox told outbox → OpensOutbox told r.1) }
    ensures sound { IfOk result (λ r. outboxes.is_broken r.1 ≡ false) }
    ensures limit { IfOk result (λ r. outboxes.limits_of r.1 ≡ outboxes.limits_of outbox) }
    ensures few { IfOk result (λ r. outboxes.front_of r.1 < 2 ^ 40) }
    ensures never_falls { IfOk result (λ r. outboxes.faults_of outbox ≤ outboxes.faults_of r.1) }
    ensures refused { IfErr result (λ e. (before : D) → OpensOutbox (D.told before) outbox → D.faults before ≤ outboxes.faults_of outbox
        → RefusedInput senders S.left S.faults input.old input.new e.0 ⊎ RefusedPlans senders (S.left input.old) D.told D.faults before e.1 e.0) }
    ensures kept { IfErr result (λ e. (before : D) → OpensOutbox (D.told before) outbox → KeepsRecords D.told D.may_leave before e.1) }
    ensures refused_never_falls { IfErr result (λ e. outboxes.faults_of outbox ≤ D.faults e.1) }
    ensures counted { S.faults input.old ≤ S.faults input.new }
{
    let given = match read_input(alloc, u16::from(senders), input) {
        Ok(given) => given,
        Err(status) => return Err((status, close_outbox(outbox))),
    };
    match compared(alloc, &given, outbox) {
        Ok(outbox) => Ok((given.plans, outbox)),
        Err((disk, status)) => Err((status, disk)),
    }
}

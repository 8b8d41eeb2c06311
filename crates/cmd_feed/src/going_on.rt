//! OUT, gone on with over the inbox of a session.

ghost use Rattle.std.specs.Prelude.{◌≡◌, ◌⊎◌, ◌+◌, ◌<◌, ◌≤◌, ◌^◌, ℕ, List, Option, None, false, IfOk, IfErr};
ghost use Rattle.std.specs.Option.{ForSome};
ghost use Rattle.gw_outside.specs.Faults.{HasRisen};
ghost use Rattle.fixp_msgs.specs.declared.flow.Flow.TheVariants as flows;
ghost use Rattle.jr_kept.specs.Inbox as inboxes;
ghost use Rattle.conn_out.specs.declared.fault.OutFault.TheVariants as out_faults;
ghost use Rattle.cmd_session.specs.Lived.{KeepsRecords, OpensInbox};
ghost use Rattle.cmd_feed.specs.Steps.{IsToldBy, WentOn, StillProjects, RefusesOut};

use cmd_base::{JournalCause, Status, Which, begin};
use cmd_session::open_inbox;
use conn_out::{OutFault, go_on};
use fixp_shake::Flow;
use gw_appended::Appended;
use gw_outside::Disk;
use jr_kept::Inbox;
use jr_segments::SegJournal;
use std::alloc::Global;

/// The status of an OUT that was not gone on with.
fn not_gone_on(fault: OutFault) -> Status
    ensures output { result ≡ Status.OutputFault → (fault ≡ out_faults.Output) ⊎ (fault ≡ out_faults.Short) }
    ensures journal { result ≡ Status.JournalFault → fault ≡ out_faults.Journal }
    ensures refused { (told : Option (List ℕ)) → ((at : ℕ) → fault ≡ out_faults.Changed at → ForSome told (λ _. ⊥)) → RefusesOut told result }
{
    match fault {
        OutFault::Output | OutFault::Short => Status::OutputFault,
        OutFault::Journal => Status::JournalFault,
        OutFault::Changed { at } => Status::JournalBad {
            which: Which::Inbox,
            cause: JournalCause::Changed { at },
        },
        OutFault::Memory => Status::Memory,
    }
}

/// Goes on with OUT: what is no whole line at its end is cut off, and the messages of the inbox that come behind the last one of which it tells are
/// told. One that keeps nothing is begun.
///
/// # Errors
/// The status, and the disk of the inbox.
pub(crate) fn out_on<K: Appended, D: Disk>(
    alloc: Global,
    flow: Flow,
    out: &mut K,
    inbox: Inbox<SegJournal<D>>,
) -> Result<Inbox<SegJournal<D>>, (Status, D)>
    requires in_sound { inboxes.is_broken inbox ≡ false }
    requires flow { inboxes.flow_of inbox ≡ flow }
    ensures opened { IfOk result (λ box. (told : Option (List ℕ)) → OpensInbox told inbox → IsToldBy told inbox → OpensInbox told box) }
    ensures went { IfOk result (λ _. (told : Option (List ℕ)) → OpensInbox told inbox → IsToldBy told inbox
        → WentOn K.keeps told (K.taken out.old) (K.taken out.new)) }
    ensures projects { IfErr result (λ _. (told : Option (List ℕ)) → OpensInbox told inbox → IsToldBy told inbox
        → StillProjects told (K.taken out.old) (K.taken out.new)) }
    ensures kept { IfErr result (λ e. (before : D) → OpensInbox (D.told before) inbox → IsToldBy (D.told before) inbox
        → KeepsRecords D.told D.may_leave before e.1) }
    ensures refused { IfErr result (λ e. (told : Option (List ℕ)) → OpensInbox told inbox → IsToldBy told inbox → RefusesOut told e.0) }
    ensures in_sound { IfOk result (λ box. inboxes.is_broken box ≡ false) }
    ensures flow { IfOk result (λ box. inboxes.flow_of box ≡ flow) }
    ensures limit { IfOk result (λ box. ((inboxes.limits_of box).entries ≡ 2 ^ 26) × ((inboxes.limits_of box).bytes ≡ 2 ^ 33)) }
    ensures numbered { IfOk result (λ box. flow ≡ flows.Recoverable → inboxes.next_of box + 1 < 2 ^ 64) }
    ensures never_falls { IfOk result (λ box. inboxes.faults_of inbox ≤ inboxes.faults_of box) }
    ensures refused_never_falls { IfErr result (λ e. inboxes.faults_of inbox ≤ D.faults e.1) }
    ensures journal { IfErr result (λ e. e.0 ≡ Status.JournalFault → HasRisen (inboxes.faults_of inbox) (D.faults e.1)) }
    ensures output { IfErr result (λ e. e.0 ≡ Status.OutputFault → HasRisen (K.faults out.old) (K.faults out.new) ⊎ (K.taken out.old ≡ None)) }
    ensures counted { K.faults out.old ≤ K.faults out.new }
{
    let mut journal = inbox.into_journal();
    match go_on(alloc, &mut journal, out) {
        Ok(_) => {}
        Err(fault) => return Err((not_gone_on(fault), journal.close())),
    }
    match begin(out) {
        Ok(()) => {}
        Err(_) => return Err((Status::OutputFault, journal.close())),
    }
    match open_inbox(alloc, journal.close(), flow) {
        Ok(inbox) => Ok(inbox),
        Err((disk, status)) => Err((status, disk)),
    }
}

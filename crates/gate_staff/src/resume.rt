//! How a business takes its place behind the messages of an inbox.
ghost use Rattle.std.specs.Prelude.{◌≡◌, ◌≢◌, ◌⊎◌, ℕ, ◌+◌, ◌<◌, ◌≤◌, false, List, take, drop, length, Ok, Err, IfOk, OnOk, IsErrOf, IfSome, IfNone};
ghost use Rattle.gw_outside.specs.Faults.{HasRisen};
ghost use Rattle.session_model.specs.Inbox.{InboxRecord, applied, payloads_of, has_peer_finished};
ghost use Rattle.session_model.specs.Plans.{GoesOn};
ghost use Rattle.jr_dated.specs.declared.faults.FetchFault.TheVariants as fetch;
ghost use Rattle.jr_kept.specs.Inbox.{StandsFor, SameContent, faults_of, is_broken, limits_of, flow_of, count_of};
ghost use Rattle.jr_boxes.specs.declared.faults.SubmitFault.{SubmitFault};
ghost use Rattle.jr_boxes.specs.declared.faults.SubmitFault.TheVariants as submit;
ghost use Rattle.gate_senders.specs.Gate.{senders_of};
ghost use Rattle.gate_staff.specs.Business.{lock_of, AllStay, Resumed, ShownByOne, StandsOnResume};
ghost use Rattle.gate_staff.specs.declared.business.ResumeFault.TheVariants as resuming;

use crate::business::{Business, ResumeFault};
use gate_senders::Gate;
use jr_dated::{FetchFault, Journal};
use jr_kept::{Inbox, SubmitFault};
use lists::List;
use sbe_value::Payloads;
use std::alloc::Global;
use std::sync::Wait;
use std::thread::Threads;

/// How many messages a call answers at most.
const MOST: u64 = 512;

/// Reads the next applied messages behind so many, as many as a call answers.
fn read_next<I: Journal>(
    alloc: Global,
    inbox: &mut Inbox<I>,
    from: u64,
) -> Result<Payloads, FetchFault>
    requires sound { is_broken inbox.old ≡ false }
    requires within { from < count_of inbox.old }
    ensures most { IfOk result (λ list. length list ≤ 512) }
    ensures some { IfOk result (λ list. 0 < length list) }
    ensures within { IfOk result (λ list. from + length list ≤ count_of inbox.old) }
    ensures payloads { IfOk result (λ list. I.tells → (i : List InboxRecord) → StandsFor inbox.old i → list ≡ take (length list) (drop from (payloads_of (applied i)))) }
    ensures cause { IsErrOf result fetch.Fault → HasRisen (faults_of inbox.old) (faults_of inbox.new) }
    ensures sound { result ≢ Err fetch.Broken }
    ensures changed { (at : ℕ) → result ≡ Err (fetch.Changed at) → I.tells → ⊥ }
    ensures content { SameContent inbox.old inbox.new }
    ensures never_falls { faults_of inbox.old ≤ faults_of inbox.new }
    ensures kind { (limits_of inbox.new ≡ limits_of inbox.old) × (flow_of inbox.new ≡ flow_of inbox.old) }
    ensures unbroken { OnOk result (is_broken inbox.new ≡ false) }
{
    let more = (inbox.count() - from).min(MOST);
    let mut list: Payloads = List::new(alloc);
    for k in 0..more {
        let payload = inbox.payload(from + k + 1)?;
        list.push(payload)?;
    }
    Ok(list)
}

/// The refusal of an answer, but for the one that the outbox is closed: nothing is sent from then on, and the messages are counted on.
fn refusal(answer: Result<(), SubmitFault>) -> Option<SubmitFault>
    ensures some { IfSome result (λ f. (answer ≡ Err f) × (f ≢ submit.Closed)) }
    ensures none { IfNone result ((answer ≡ Ok tt) ⊎ (answer ≡ Err submit.Closed)) }
{
    match answer {
        Ok(()) => None,
        Err(SubmitFault::Closed) => None,
        Err(fault) => Some(fault),
    }
}

/// Over more applied messages each plan of a business begins with what it was.
fn plans_go_on<J: Journal + Send, B: Business<J>>(business: &B)
    ensures law { GoesOn (B.plan business.now) }
{
    let _ = business;
}

/// Answers the messages of the inbox, behind those that the outbox has answers to already.
pub(crate) fn take_place<
    I: Journal,
    J: Journal + Send,
    B: Business<J> + Send,
    R: Threads + Wait + Sync,
>(
    alloc: Global,
    business: &mut B,
    inbox: &mut Inbox<I>,
    gate: &Gate<J>,
    rt: &R,
) -> Result<(), ResumeFault>
    requires own { B.has business.old (lock_of gate.now) }
    requires few { B.count business.old ≤ senders_of gate.now }
    requires sound { is_broken inbox.old ≡ false }
    ensures own { B.has business.new (lock_of gate.now) }
    ensures same { (B.count business.new ≡ B.count business.old) × (B.plan business.new ≡ B.plan business.old) }
    ensures stays { AllStay (B.count business.old) (B.part business.old) (B.part business.new) }
    ensures stands { (i : List InboxRecord) → I.tells → StandsFor inbox.old i → StandsOnResume result (B.stands business.new (payloads_of (applied i))) }
    ensures resumed { (i : List InboxRecord) → I.tells → StandsFor inbox.old i → Resumed (λ n. B.plan business.old n (payloads_of (applied i))) (B.count business.old) (B.part business.old) (B.part business.new) (has_peer_finished i) result }
    ensures read { (i : List InboxRecord) → StandsFor inbox.old i → ∥ ((l : List (List ℕ)) × (length l ≡ length (applied i)) × StandsOnResume result (B.stands business.new l)
        × Resumed (λ n. B.plan business.old n l) (B.count business.old) (B.part business.old) (B.part business.new) (has_peer_finished i) result) ∥₁ }
    ensures refused { (f : SubmitFault) → result ≡ Err (resuming.Submit f) → f ≢ submit.Memory → ShownByOne (B.count business.old) (B.part business.old) (B.part business.new) f }
    ensures fetch { result ≡ Err (resuming.Fetch fetch.Fault) → HasRisen (faults_of inbox.old) (faults_of inbox.new) }
    ensures sound { result ≢ Err (resuming.Fetch fetch.Broken) }
    ensures changed { (at : ℕ) → result ≡ Err (resuming.Fetch (fetch.Changed at)) → I.tells → ⊥ }
    ensures content { SameContent inbox.old inbox.new }
    ensures never_falls { faults_of inbox.old ≤ faults_of inbox.new }
    ensures kind { (limits_of inbox.new ≡ limits_of inbox.old) × (flow_of inbox.new ≡ flow_of inbox.old) }
    ensures unbroken { StandsOnResume result (is_broken inbox.new ≡ false) }
{
    plans_go_on::<J, B>(business);
    business.begin(gate, rt);
    let count = inbox.count();
    let finished = inbox.peer_last().is_some();
    let mut read = 0;
    while read < count {
        let payloads = match read_next(alloc, inbox, read) {
            Ok(payloads) => payloads,
            Err(fault) => return Err(ResumeFault::Fetch(fault)),
        };
        let answer = business.on_applied(&payloads, false, gate, rt);
        if let Some(fault) = refusal(answer) {
            return Err(ResumeFault::Submit(fault));
        }
        read += payloads.len() as u64;
    }
    let none: Payloads = List::new(alloc);
    match business.on_applied(&none, finished, gate, rt) {
        Ok(()) => Ok(()),
        Err(fault) => Err(ResumeFault::Submit(fault)),
    }
}

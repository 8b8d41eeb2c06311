//! A frame is answered: by the machine, with its record in the inbox or its message gathered; and then the held messages are gathered that
//! this lets in. What is gathered is made stable in one call.

ghost use Rattle.std.specs.Prelude.{◌≡◌, ℕ, ◌+◌, ◌^◌, ◌<◌, ◌≤◌, [], length, true, Ok, Err, None, IfErr, OnOk};
ghost use Rattle.std.specs.List.{AllByRecursion};
ghost use Rattle.fixp_msgs.specs.Payload.{IsApplication};
ghost use Rattle.jr_kept.specs.Inbox.{faults_of, is_broken, size_of, count_of};
ghost use Rattle.conn_turns.specs.declared.answer.TurnFault.TheVariants as faults;
ghost use Rattle.conn_turns.specs.News.{items_of};
ghost use Rattle.conn_turns.specs.Lines.{ready_in};
ghost use Rattle.conn_steps.specs.Gathered.{payloads_in};
ghost use Rattle.conn_steps.specs.Settling.{SameKind, MayStand, AllStand};
ghost use Rattle.conn_steps.specs.Agreeing.{IsInTurn, AgreesBut, KeepsOwn, unheld};
ghost use Rattle.fixp_machine.specs.Machine.{front_of};
ghost use Rattle.conn_steps.specs.Taking.{AnsweredAct, AppliedHeld, AnsweredFrame, RefusedAnswer, RefusedWaiting, Blames, fault_of};
ghost use Rattle.conn_steps.specs.Ends.{intake, answering_end, waiting_in};

use crate::gathered::Gathered;
use crate::records::{apply_gathered, settle};
use conn_turns::{News, TurnFault};
use fixp_end::End;
use jr_dated::Journal;
use jr_kept::Inbox;
use jr_record::AppendFault;
use sbe_prim::Order;

/// A refusal of the inbox, as a turn answers it.
fn refusal<J: Journal>(inbox: &Inbox<J>, fault: AppendFault) -> TurnFault
    ensures { result ≡ fault_of (count_of inbox.now) fault }
{
    match fault {
        AppendFault::Broken => TurnFault::Broken,
        AppendFault::Full { bytes } => TurnFault::Full {
            entries: inbox.count(),
            bytes,
        },
        AppendFault::Memory => TurnFault::Memory,
        AppendFault::Fault => TurnFault::Inbox,
    }
}

/// Makes all that is gathered stable by one call of the inbox, and tells it; where nothing is gathered no call is made.
///
/// # Errors
/// Where a record was refused, or memory for what is to be told. At `Full` the first ones are stable and told, up to the one for which
/// the inbox has no room; and else none.
pub fn make_stable<J: Journal>(
    gathered: &mut Gathered,
    inbox: &mut Inbox<J>,
    news: &mut News,
) -> Result<(), TurnFault>
    requires may_stand { MayStand inbox.old (payloads_in gathered.old) }
    ensures ok { OnOk result (AllStand inbox.old inbox.new (items_of news.old) (items_of news.new) (waiting_in (intake inbox.old (items_of news.old) (payloads_in gathered.old)))) }
    ensures none { OnOk result (payloads_in gathered.new ≡ []) }
    ensures refused { IfErr result (RefusedWaiting (intake inbox.old (items_of news.old) (payloads_in gathered.old)) (intake inbox.new (items_of news.new) (payloads_in gathered.new))) }
    ensures blames { IfErr result (Blames inbox.old inbox.new) }
    ensures kind { SameKind inbox.old inbox.new }
    ensures never_falls { faults_of inbox.old ≤ faults_of inbox.new }
{
    if let Err(fault) = apply_gathered(gathered, inbox, news) {
        return Err(refusal(inbox, fault));
    }
    Ok(())
}

/// Answers a frame: the machine replies to it, and its message is gathered, or the record of its act made stable behind all that was
/// gathered; then its reply is written; and behind it the held messages are gathered that the inbox then awaits.
///
/// # Errors
/// Where a record was refused, or memory for a message or for what is to be told.
pub fn answer_frame<J: Journal>(
    end: &mut End,
    gathered: &mut Gathered,
    inbox: &mut Inbox<J>,
    news: &mut News,
    order: Order,
    message: &[u8],
    at: u64,
    now: u64,
) -> Result<(), TurnFault>
    requires header { 8 ≤ length message.now }
    requires most { length message.now ≤ 16384 }
    requires open { end.old.ending ≡ None }
    requires in_turn { IsInTurn end.old now 1 5000000 }
    requires time { now < 2 ^ 44 }
    requires agrees { AgreesBut (payloads_in gathered.old) end.old inbox.old }
    ensures answered { OnOk result (AnsweredFrame now (answering_end end.old (intake inbox.old (items_of news.old) (payloads_in gathered.old))) (answering_end end.new (intake inbox.new (items_of news.new) (payloads_in gathered.new))) (record { order = order; message = message.now }) at) }
    ensures refused { IfErr result (RefusedAnswer now (answering_end end.old (intake inbox.old (items_of news.old) (payloads_in gathered.old))) (answering_end end.new (intake inbox.new (items_of news.new) (payloads_in gathered.new))) (record { order = order; message = message.now }) at) }
    ensures in_turn { (frames bytes : ℕ) → IsInTurn end.old now (frames + 1) bytes → OnOk result (IsInTurn end.new now frames bytes) }
    ensures agrees { OnOk result (AgreesBut (payloads_in gathered.new) end.new inbox.new) }
    ensures own { OnOk result (KeepsOwn end.old end.new) }
    ensures blames { IfErr result (Blames inbox.old inbox.new) }
    ensures kind { SameKind inbox.old inbox.new }
    ensures never_falls { faults_of inbox.old ≤ faults_of inbox.new }
{
    answer_act(end, gathered, inbox, news, order, message, at, now)?;
    gather_held(end, gathered)
}

/// The machine replies to a frame, its message is gathered, or the record of its act made stable, and then its reply is written.
///
/// # Errors
/// Where a record was refused, or memory for the message or for what is to be told.
fn answer_act<J: Journal>(
    end: &mut End,
    gathered: &mut Gathered,
    inbox: &mut Inbox<J>,
    news: &mut News,
    order: Order,
    message: &[u8],
    at: u64,
    now: u64,
) -> Result<(), TurnFault>
    requires header { 8 ≤ length message.now }
    requires most { length message.now ≤ 16384 }
    requires open { end.old.ending ≡ None }
    requires in_turn { IsInTurn end.old now 1 5000000 }
    requires time { now < 2 ^ 44 }
    requires agrees { AgreesBut (payloads_in gathered.old) end.old inbox.old }
    ensures answered { OnOk result (AnsweredAct now (answering_end end.old (intake inbox.old (items_of news.old) (payloads_in gathered.old))) (answering_end end.new (intake inbox.new (items_of news.new) (payloads_in gathered.new))) (record { order = order; message = message.now }) at) }
    ensures refused { IfErr result (RefusedAnswer now (answering_end end.old (intake inbox.old (items_of news.old) (payloads_in gathered.old))) (answering_end end.new (intake inbox.new (items_of news.new) (payloads_in gathered.new))) (record { order = order; message = message.now }) at) }
    ensures in_turn { (frames bytes : ℕ) → IsInTurn end.old now (frames + 1) bytes → OnOk result (IsInTurn (unheld end.new) now frames bytes) }
    ensures done { OnOk result (end.new.pending ≡ None) }
    ensures agrees { OnOk result (AgreesBut (payloads_in gathered.new) end.new inbox.new) }
    ensures own { OnOk result (KeepsOwn end.old end.new) }
    ensures blames { IfErr result (Blames inbox.old inbox.new) }
    ensures kind { SameKind inbox.old inbox.new }
    ensures never_falls { faults_of inbox.old ≤ faults_of inbox.new }
{
    let act = end.on_frame(order, message, at, now);
    if let Err(fault) = settle(gathered, inbox, news, act, order, message) {
        return Err(refusal(inbox, fault));
    }
    if !act.is_record() {
        return Ok(());
    }
    end.did(now);
    Ok(())
}

/// Gathers the held messages that the inbox awaits, one after another, and tells the machine of each that it is done.
///
/// # Errors
/// Want of memory for a message.
fn gather_held(end: &mut End, gathered: &mut Gathered) -> Result<(), TurnFault>
    requires done { end.old.pending ≡ None }
    ensures applied { OnOk result (AppliedHeld (length (ready_in end.old)) end.old end.new (payloads_in gathered.old) (payloads_in gathered.new)) }
    ensures lacks { IfErr result (λ fault. (fault ≡ faults.Memory) × (0 < length (ready_in end.old))) }
    ensures drained { OnOk result (front_of end.new ≡ None) }
    ensures applications { AllByRecursion IsApplication (payloads_in gathered.old) → OnOk result (AllByRecursion IsApplication (payloads_in gathered.new)) }
    ensures recorded { OnOk result (end.new.facts.recorded ≡ record end.old.facts.recorded { inbox_next = end.old.facts.recorded.inbox_next + length (ready_in end.old) }) }
    ensures numbers { 0 < length (ready_in end.old) → OnOk result (end.new.facts.recorded.inbox_next ≤ end.old.most + 1) }
    ensures in_turn { (now frames bytes : ℕ) → IsInTurn (unheld end.old) now frames bytes → OnOk result (IsInTurn end.new now frames bytes) }
    ensures own { KeepsOwn end.old end.new }
{
    while let Some(message) = end.held() {
        if let Err(_) = gathered.gather_held(message.1) {
            return Err(TurnFault::Memory);
        }
        end.held_done();
    }
    Ok(())
}

//! Replies to what comes on the peer's flow: application messages, Sequence, retransmissions, and the finish.

ghost use Rattle.std.specs.Prelude.{◌≡◌, ℕ, ◌<◌, ◌≤◌, ◌^◌, ◌∷◌, [], List, true, Some, IfSome};
ghost use Rattle.fixp_msgs.specs.Message.{sequence, retransmission, retransmit_reject, finished_sending};
ghost use Rattle.fixp_shake.specs.Flows.{is_recoverable};
ghost use Rattle.fixp_replies.specs.Facts.{around_of, message_number, awaits_gap};
ghost use Rattle.fixp_replies.specs.Outcomes.{first_row, not_in_phase};
ghost use Rattle.fixp_replies.specs.Announcing.{announcement_answered};
ghost use Rattle.fixp_replies.specs.Flowing.{bad_retransmission, holds, numbered_rows, application_rows, is_after_finish, answers_finish, is_filled, is_past_finish, sequence_taken, sequence_follows, is_last, finish_fault, finished, finished_last};
ghost use Rattle.fixp_replies.specs.Incoming.{application, session};
ghost use Rattle.fixp_replies.specs.Replies.{answer_of};
ghost use Rattle.fixp_replies.specs.Outgoing.{outcome_of, written_limit, reply_limit};

use crate::act::Act;
use crate::announcing::{announce, announcement_fault};
use crate::facts::{Around, Facts, PeerFinish};
use crate::guards::out_of_place;
use crate::reply::{Outgoing, Reply};
use crate::standing::{gap, live_number, message_number, peer_last};
use fixp_msgs::{FinishedSending, Range, Retransmission, RetransmitReject};
use fixp_shake::{Violation, is_absent, is_established, is_recoverable, is_sequenced};
use flow_recover::Seen;
use flow_retrans::BadStart;

/// A retransmission does not match its request.
fn break_retransmission(around: &Around<'_>, facts: &Facts, bad: BadStart) -> Reply
    ensures reply { outcome_of around.now.config.now result facts.now ≡ bad_retransmission (around_of around.now) facts.now (Some bad) }
    ensures small { written_limit around.now.config.now result.written ≤ 64 }
{
    let BadStart { expected, found } = bad;
    let violation = Violation::BadRetransmission { expected, found };
    Reply::breaks(around, facts, violation)
}

/// A message is held under this number, and the gap is asked for up to the least number held.
fn hold(around: &Around<'_>, facts: &mut Facts, number: u64) -> Reply
    requires { around.now.moment < 2 ^ 44 }
    ensures reply { outcome_of around.now.config.now result facts.new ≡ holds (around_of around.now) facts.old number }
    ensures sent { facts.new.recorded.sent ≡ facts.old.recorded.sent }
    ensures small { written_limit around.now.config.now result.written ≤ 64 }
{
    let behind = Around {
        config: around.config,
        most: around.most,
        at: around.at,
        moment: around.moment,
        held: Some(number.min(around.held.unwrap_or(number))),
    };
    let mut reply = Reply::accepts(&behind, facts, None);
    reply.holds = Some(number);
    reply
}

/// A message of a recoverable flow.
fn take_numbered(around: &Around<'_>, facts: &mut Facts) -> Reply
    requires moment { around.now.moment < 2 ^ 44 }
    requires number { message_number (around_of around.now) facts.old ≤ 2 ^ 26 }
    requires flow { is_recoverable around.now.config.now.peer_flow ≡ true }
    ensures reply { outcome_of around.now.config.now result facts.new ≡ first_row (not_in_phase (around_of around.now) facts.old 0) (numbered_rows (around_of around.now) facts.old) }
    ensures sent { facts.new.recorded.sent ≡ facts.old.recorded.sent }
    ensures small { written_limit around.now.config.now result.written ≤ reply_limit around.now.config.now }
{
    if let Err(bad) = facts.connection.requester.on_app() {
        return break_retransmission(around, facts, bad);
    }
    facts.connection.soft = false;
    match facts.connection.receiver.on_app() {
        Seen::Deliver(number) => {
            facts.recorded.inbox_next = number + 1;
            Reply::goes_on(around, facts, Act::Apply { number }, None)
        }
        Seen::Hold(number) => hold(around, facts, number),
        Seen::Gap(_) | Seen::Repeat(_) => Reply::accepts(around, facts, None),
    }
}

/// Whether a message that comes now is a live one behind the peer's finish.
fn is_after_finish(facts: &Facts) -> bool
    ensures { result ≡ is_after_finish facts.now }
{
    peer_last(facts).is_some() && !facts.connection.requester.is_coming()
}

/// An application message, where the connection is established.
fn take_application(around: &Around<'_>, facts: &mut Facts) -> Reply
    requires moment { around.now.moment < 2 ^ 44 }
    requires most { around.now.most ≤ 2 ^ 26 }
    ensures reply { outcome_of around.now.config.now result facts.new ≡ first_row (not_in_phase (around_of around.now) facts.old 0) (application_rows (around_of around.now) facts.old) }
    ensures sent { facts.new.recorded.sent ≡ facts.old.recorded.sent }
    ensures small { written_limit around.now.config.now result.written ≤ reply_limit around.now.config.now }
{
    if is_absent(around.config.peer_flow) {
        return Reply::breaks(around, facts, Violation::FlowNone { template: 0 });
    }
    let number = message_number(around, facts);
    if is_after_finish(facts) {
        let last = peer_last(facts).unwrap_or(0);
        let violation = Violation::AfterFinish {
            last,
            found: number,
        };
        return Reply::breaks(around, facts, violation);
    }
    if number > around.most {
        let violation = Violation::NumberTooLarge { announced: number };
        return Reply::breaks(around, facts, violation);
    }
    if is_recoverable(around.config.peer_flow) {
        return take_numbered(around, facts);
    }
    facts.recorded.inbox_next = number + 1;
    Reply::goes_on(around, facts, Act::Apply { number }, None)
}

pub fn on_application(around: &Around<'_>, facts: &mut Facts) -> Reply
    requires moment { around.now.moment < 2 ^ 44 }
    requires most { around.now.most ≤ 2 ^ 26 }
    ensures reply { (payload : List ℕ) → outcome_of around.now.config.now result facts.new ≡ answer_of (around_of around.now) facts.old (application payload) }
    ensures sent { facts.new.recorded.sent ≡ facts.old.recorded.sent }
    ensures small { written_limit around.now.config.now result.written ≤ reply_limit around.now.config.now }
{
    if is_established(facts.connection.phase) {
        take_application(around, facts)
    } else {
        Reply::not_in_phase(around, facts, 0)
    }
}

/// The finish that came and waits for a gap to be filled.
fn awaits_gap(finish: PeerFinish) -> Option<u64>
    ensures { result ≡ awaits_gap finish }
{
    match finish {
        PeerFinish::Read(last) => Some(last),
        PeerFinish::Open | PeerFinish::Exchanged(_) => None,
    }
}

/// Whether a finish came that waited for a gap, and the gap is filled.
fn is_filled(around: &Around<'_>, facts: &Facts) -> bool
    ensures { result ≡ is_filled (around_of around.now) facts.now }
{
    awaits_gap(facts.connection.peer_finish).is_some() && gap(around, facts).is_none()
}

/// The peer's finish is recorded, if it was not, and answered.
fn answer_finish(around: &Around<'_>, facts: &mut Facts, last: u64) -> Reply
    requires { around.now.moment < 2 ^ 44 }
    ensures reply { outcome_of around.now.config.now result facts.new ≡ answers_finish (around_of around.now) facts.old last }
    ensures sent { facts.new.recorded.sent ≡ facts.old.recorded.sent }
    ensures small { written_limit around.now.config.now result.written ≤ reply_limit around.now.config.now }
{
    let act = match facts.recorded.peer_last {
        None => Act::PeerFinished { last },
        Some(_) => Act::Nothing,
    };
    facts.recorded.peer_last = Some(facts.recorded.peer_last.unwrap_or(last));
    facts.connection.peer_finish = PeerFinish::Exchanged(last);
    Reply::goes_on(around, facts, act, Some(Outgoing::FinishedReceiving))
}

/// Whether the peer's finish told that this number would not come.
fn is_past_finish(around: &Around<'_>, facts: &Facts, next: u64) -> bool
    ensures { result ≡ is_past_finish (around_of around.now) facts.now next }
{
    match peer_last(facts) {
        Some(last) => is_sequenced(around.config.peer_flow) && last.checked_add(1) != Some(next),
        None => false,
    }
}

/// The announcement of a Sequence was taken, which jumped over these numbers.
fn follow_sequence(around: &Around<'_>, facts: &mut Facts, skipped: Option<Range>) -> Reply
    requires moment { around.now.moment < 2 ^ 44 }
    requires count { IfSome skipped (λ range. range.count < 2 ^ 32) }
    ensures reply { outcome_of around.now.config.now result facts.new
        ≡ sequence_taken (around_of around.now) (record { facts = facts.old; skipped = skipped }) }
    ensures sent { facts.new.recorded.sent ≡ facts.old.recorded.sent }
    ensures small { written_limit around.now.config.now result.written ≤ reply_limit around.now.config.now }
{
    if is_filled(around, facts) {
        let last = awaits_gap(facts.connection.peer_finish).unwrap_or(0);
        answer_finish(around, facts, last)
    } else {
        Reply::skips(around, facts, None, skipped)
    }
}

/// A Sequence announces the next number.
fn announce_in_flow(around: &Around<'_>, facts: &mut Facts, next: u64) -> Reply
    requires moment { around.now.moment < 2 ^ 44 }
    requires most { around.now.most ≤ 2 ^ 26 }
    ensures reply { outcome_of around.now.config.now result facts.new
        ≡ announcement_answered (around_of around.now) facts.old 7 (Some next) (sequence_follows (around_of around.now) facts.old next) }
    ensures sent { facts.new.recorded.sent ≡ facts.old.recorded.sent }
    ensures small { written_limit around.now.config.now result.written ≤ reply_limit around.now.config.now }
{
    if let Some(violation) = announcement_fault(around, facts, 7, Some(next)) {
        return Reply::breaks(around, facts, violation);
    }
    if is_past_finish(around, facts, next) {
        let last = peer_last(facts).unwrap_or(0);
        let violation = Violation::AfterFinish { last, found: next };
        return Reply::breaks(around, facts, violation);
    }
    let skipped = announce(around, facts, Some(next));
    follow_sequence(around, facts, skipped)
}

pub fn on_sequence(around: &Around<'_>, facts: &mut Facts, next: u64) -> Reply
    requires moment { around.now.moment < 2 ^ 44 }
    requires most { around.now.most ≤ 2 ^ 26 }
    ensures reply { outcome_of around.now.config.now result facts.new ≡ answer_of (around_of around.now) facts.old (session (sequence next)) }
    ensures sent { facts.new.recorded.sent ≡ facts.old.recorded.sent }
    ensures small { written_limit around.now.config.now result.written ≤ reply_limit around.now.config.now }
{
    if !is_established(facts.connection.phase) {
        return Reply::not_in_phase(around, facts, 7);
    }
    if let Err(bad) = facts.connection.requester.on_sequence() {
        return break_retransmission(around, facts, bad);
    }
    announce_in_flow(around, facts, next)
}

pub fn on_retransmission(around: &Around<'_>, facts: &mut Facts, m: &Retransmission) -> Reply
    requires { around.now.moment < 2 ^ 44 }
    ensures reply { outcome_of around.now.config.now result facts.new
        ≡ answer_of (around_of around.now) facts.old (session (retransmission m.now.session_id m.now.next_seq m.now.request_timestamp m.now.count)) }
    ensures sent { facts.new.recorded.sent ≡ facts.old.recorded.sent }
    ensures small { written_limit around.now.config.now result.written ≤ reply_limit around.now.config.now }
{
    let awaited = is_established(facts.connection.phase);
    if let Some(violation) = out_of_place(around, facts, 10, &m.session_id, awaited) {
        return Reply::breaks(around, facts, violation);
    }
    if let Err(bad) = facts.connection.requester.on_start(m.next_seq, m.count) {
        return break_retransmission(around, facts, bad);
    }
    facts.connection.receiver.on_retransmission(m.next_seq);
    Reply::accepts(around, facts, None)
}

pub fn on_retransmit_reject(
    around: &Around<'_>,
    facts: &mut Facts,
    m: &RetransmitReject<'_>,
) -> Reply
    ensures reply { outcome_of around.now.config.now result facts.new
        ≡ answer_of (around_of around.now) facts.old (session (retransmit_reject m.now.session_id m.now.request_timestamp m.now.code m.now.reason.now)) }
    ensures sent { facts.new.recorded.sent ≡ facts.old.recorded.sent }
    ensures small { written_limit around.now.config.now result.written ≤ reply_limit around.now.config.now }
{
    let awaited = is_established(facts.connection.phase);
    if let Some(violation) = out_of_place(around, facts, 11, &m.session_id, awaited) {
        return Reply::breaks(around, facts, violation);
    }
    let expected = match facts.connection.requester.outstanding() {
        Some(range) => range.from,
        None => 0,
    };
    let violation = Violation::BadRetransmission { expected, found: 0 };
    Reply::breaks(around, facts, violation)
}

/// Whether a flow whose finish tells this last number has ended there, as its finish told before.
fn is_last(around: &Around<'_>, facts: &Facts, last: u64) -> bool
    ensures { result ≡ is_last (around_of around.now) facts.now last }
{
    last.checked_add(1) == Some(live_number(around, facts))
        && last == peer_last(facts).unwrap_or(last)
}

/// The rule that a finish with this last number breaks, if it breaks one.
fn finish_fault(around: &Around<'_>, facts: &Facts, last: Option<u64>) -> Option<Violation>
    ensures { result ≡ finish_fault (around_of around.now) facts.now last }
{
    if is_absent(around.config.peer_flow) {
        return Some(Violation::FlowNone { template: 14 });
    }
    if !is_sequenced(around.config.peer_flow) {
        return None;
    }
    let Some(last) = last else {
        return Some(Violation::MissingNext { template: 14 });
    };
    if is_last(around, facts, last) {
        return None;
    }
    let found = live_number(around, facts);
    Some(Violation::AfterFinish { last, found })
}

/// A finish with this last number, which breaks no rule.
fn finish(around: &Around<'_>, facts: &mut Facts, last: u64) -> Reply
    requires { around.now.moment < 2 ^ 44 }
    ensures reply { outcome_of around.now.config.now result facts.new ≡ finished (around_of around.now) facts.old last }
    ensures sent { facts.new.recorded.sent ≡ facts.old.recorded.sent }
    ensures small { written_limit around.now.config.now result.written ≤ reply_limit around.now.config.now }
{
    if gap(around, facts).is_some() {
        facts.connection.peer_finish = PeerFinish::Read(last);
        Reply::accepts(around, facts, None)
    } else {
        answer_finish(around, facts, last)
    }
}

/// The last number that a finish tells: 0 for a flow without numbers.
fn finished_last(around: &Around<'_>, last: Option<u64>) -> u64
    ensures { result ≡ finished_last (around_of around.now) last }
{
    if is_sequenced(around.config.peer_flow) {
        last.unwrap_or(0)
    } else {
        0
    }
}

pub fn on_finished_sending(around: &Around<'_>, facts: &mut Facts, m: &FinishedSending) -> Reply
    requires { around.now.moment < 2 ^ 44 }
    ensures reply { outcome_of around.now.config.now result facts.new
        ≡ answer_of (around_of around.now) facts.old (session (finished_sending m.now.session_id m.now.last_seq)) }
    ensures sent { facts.new.recorded.sent ≡ facts.old.recorded.sent }
    ensures small { written_limit around.now.config.now result.written ≤ reply_limit around.now.config.now }
{
    let awaited = is_established(facts.connection.phase);
    if let Some(violation) = out_of_place(around, facts, 14, &m.session_id, awaited) {
        return Reply::breaks(around, facts, violation);
    }
    if let Some(violation) = finish_fault(around, facts, m.last_seq) {
        return Reply::breaks(around, facts, violation);
    }
    let last = finished_last(around, m.last_seq);
    finish(around, facts, last)
}

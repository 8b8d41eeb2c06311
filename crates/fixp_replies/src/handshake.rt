//! Replies to the messages that open a session and a connection.

ghost use Rattle.std.specs.Prelude.{◌≡◌, ◌<◌, ◌≤◌, ◌^◌, ◌∷◌, [], IfSome};
ghost use Rattle.fixp_msgs.specs.Message.{negotiate, negotiation_response, negotiation_reject, establish, establishment_ack, establishment_reject};
ghost use Rattle.fixp_replies.specs.Facts.{around_of, negotiated, in_phase};
ghost use Rattle.fixp_replies.specs.Outcomes.{first_row, not_in_phase, opening_negotiate, opening_establish};
ghost use Rattle.fixp_replies.specs.Handshake.{awaits_client, serves_client, negotiate_rows, rejects_negotiate, rejects_establish, established, acknowledges, establish_rows, established_again_rows, shaken, rejected};
ghost use Rattle.fixp_replies.specs.Incoming.{session};
ghost use Rattle.fixp_replies.specs.Replies.{answer_of};
ghost use Rattle.fixp_replies.specs.Outgoing.{messages_of, outgoing_message, outcome_of, written_limit, reply_limit};

use crate::act::{Act, Ending};
use crate::announcing::{announce, announcement_fault};
use crate::expecting::{answers_next, soften, take_expected, told_next};
use crate::facts::{Around, Facts};
use crate::guards::out_of_place;
use crate::reply::{Outgoing, Reply, timestamp};
use crate::standing::{announced_number, is_initiator, is_own};
use fixp_msgs::{
    Establish, EstablishmentAck, EstablishmentReject, Negotiate, NegotiationReject,
    NegotiationResponse, Range,
};
use fixp_shake::{Phase, Violation, is_established, is_establishing, is_idle, is_negotiating};

/// Whether an acceptor waits for its client to open the connection.
fn awaits_client(around: &Around<'_>, facts: &Facts) -> bool
    ensures { result ≡ awaits_client (around_of around.now) facts.now }
{
    !is_initiator(around.config.role) && is_idle(facts.connection.phase)
}

/// Whether an acceptor's connection is established.
fn serves_client(around: &Around<'_>, facts: &Facts) -> bool
    ensures { result ≡ serves_client (around_of around.now) facts.now }
{
    !is_initiator(around.config.role) && is_established(facts.connection.phase)
}

/// The message by which an initiator opens the session.
pub fn opening_negotiate(around: &Around<'_>) -> Outgoing
    requires { around.now.moment < 2 ^ 44 }
    ensures { outgoing_message around.now.config.now result ≡ opening_negotiate (around_of around.now) }
{
    Outgoing::Negotiate {
        timestamp: timestamp(around),
    }
}

/// The message by which an initiator opens the connection.
pub fn opening_establish(around: &Around<'_>, facts: &Facts) -> Outgoing
    requires moment { around.now.moment < 2 ^ 44 }
    requires sent { facts.now.recorded.sent < 2 ^ 40 }
    ensures { outgoing_message around.now.config.now result ≡ opening_establish (around_of around.now) facts.now }
{
    Outgoing::Establish {
        timestamp: timestamp(around),
        next: announced_number(around, facts),
        expected: told_next(around, facts),
    }
}

/// A Negotiate is rejected.
fn reject_negotiate(facts: &Facts, m: &Negotiate<'_>, code: u8) -> Reply
    ensures reply { (cfg : _) → outcome_of cfg result facts.now ≡ rejects_negotiate facts.now m.now.session_id m.now.timestamp code }
    ensures small { (cfg : _) → written_limit cfg result.written ≤ 64 }
{
    let reject = Outgoing::NegotiationReject {
        session_id: m.session_id,
        request_timestamp: m.timestamp,
        code,
    };
    Reply::rejects(facts, reject)
}

/// A Negotiate at an acceptor that waits for its client.
fn judge_negotiate(around: &Around<'_>, facts: &mut Facts, m: &Negotiate<'_>) -> Reply
    requires { around.now.moment < 2 ^ 44 }
    ensures reply { outcome_of around.now.config.now result facts.new
        ≡ first_row (not_in_phase (around_of around.now) facts.old 1) (negotiate_rows (around_of around.now) facts.old m.now.session_id m.now.timestamp m.now.client_flow m.now.credentials.now) }
    ensures sent { facts.new.recorded.sent ≡ facts.old.recorded.sent }
    ensures small { written_limit around.now.config.now result.written ≤ reply_limit around.now.config.now }
{
    if !is_own(around, &m.session_id) {
        return reject_negotiate(facts, m, 1);
    }
    if m.credentials != around.config.credentials.as_slice() {
        return reject_negotiate(facts, m, 2);
    }
    if m.client_flow != around.config.peer_flow.code() {
        return reject_negotiate(facts, m, 3);
    }
    if facts.recorded.negotiated {
        return reject_negotiate(facts, m, 4);
    }
    facts.recorded.negotiated = true;
    let response = Outgoing::NegotiationResponse {
        request_timestamp: m.timestamp,
    };
    Reply::goes_on(around, facts, Act::Negotiated, Some(response))
}

pub fn on_negotiate(around: &Around<'_>, facts: &mut Facts, m: &Negotiate<'_>) -> Reply
    requires { around.now.moment < 2 ^ 44 }
    ensures reply { outcome_of around.now.config.now result facts.new
        ≡ answer_of (around_of around.now) facts.old (session (negotiate m.now.session_id m.now.timestamp m.now.client_flow m.now.credentials.now)) }
    ensures sent { facts.new.recorded.sent ≡ facts.old.recorded.sent }
    ensures small { written_limit around.now.config.now result.written ≤ reply_limit around.now.config.now }
{
    if awaits_client(around, facts) {
        judge_negotiate(around, facts, m)
    } else {
        Reply::not_in_phase(around, facts, 1)
    }
}

/// An Establish is rejected.
fn reject_establish(facts: &Facts, m: &Establish<'_>, code: u8) -> Reply
    ensures reply { (cfg : _) → outcome_of cfg result facts.now ≡ rejects_establish facts.now m.now.session_id m.now.timestamp code }
    ensures small { (cfg : _) → written_limit cfg result.written ≤ 64 }
{
    let reject = Outgoing::EstablishmentReject {
        session_id: m.session_id,
        request_timestamp: m.timestamp,
        code,
    };
    Reply::rejects(facts, reject)
}

/// The handshake is done, with this interval of the peer's.
fn establish(facts: &mut Facts, interval: u32)
    ensures { facts.new ≡ established facts.old interval }
{
    facts.connection.phase = Phase::Established;
    facts.connection.peer_interval = interval;
}

/// An Establish is acknowledged, whose number is taken, and what its announcement jumped over is told.
fn acknowledge(
    around: &Around<'_>,
    facts: &mut Facts,
    m: &Establish<'_>,
    skipped: Option<Range>,
) -> Reply
    requires moment { around.now.moment < 2 ^ 44 }
    requires sent { facts.old.recorded.sent < 2 ^ 40 }
    requires count { IfSome skipped (λ range. range.count < 2 ^ 32) }
    ensures reply { outcome_of around.now.config.now result facts.new
        ≡ acknowledges (around_of around.now) m.now.timestamp m.now.keepalive m.now.expected_next (record { facts = facts.old; skipped = skipped }) }
    ensures sent { facts.new.recorded.sent ≤ facts.old.recorded.sent }
    ensures small { written_limit around.now.config.now result.written ≤ reply_limit around.now.config.now }
{
    take_expected(around, facts, m.expected_next);
    let acknowledgement = Outgoing::EstablishmentAck {
        request_timestamp: m.timestamp,
        next: announced_number(around, facts),
        expected: answers_next(around, m.expected_next, facts),
    };
    soften(around, facts, m.expected_next);
    establish(facts, m.keepalive);
    Reply::skips(around, facts, Some(acknowledgement), skipped)
}

/// An Establish at an acceptor that waits for its client.
fn judge_establish(around: &Around<'_>, facts: &mut Facts, m: &Establish<'_>) -> Reply
    requires moment { around.now.moment < 2 ^ 44 }
    requires most { around.now.most ≤ 2 ^ 26 }
    requires sent { facts.old.recorded.sent < 2 ^ 40 }
    ensures reply { outcome_of around.now.config.now result facts.new
        ≡ first_row (not_in_phase (around_of around.now) facts.old 4) (establish_rows (around_of around.now) facts.old m.now.session_id m.now.timestamp m.now.keepalive m.now.next_seq m.now.expected_next m.now.credentials.now) }
    ensures sent { facts.new.recorded.sent ≤ facts.old.recorded.sent }
    ensures small { written_limit around.now.config.now result.written ≤ reply_limit around.now.config.now }
{
    if !is_own(around, &m.session_id) || !facts.recorded.negotiated {
        return reject_establish(facts, m, 2);
    }
    if m.keepalive < 100 || 60000 < m.keepalive {
        return reject_establish(facts, m, 5);
    }
    if m.credentials != around.config.credentials.as_slice() {
        return reject_establish(facts, m, 6);
    }
    if let Some(violation) = announcement_fault(around, facts, 4, m.next_seq) {
        return Reply::breaks(around, facts, violation);
    }
    let skipped = announce(around, facts, m.next_seq);
    acknowledge(around, facts, m, skipped)
}

/// A further Establish, once it is established.
fn reject_again(around: &Around<'_>, facts: &Facts, m: &Establish<'_>) -> Reply
    ensures reply { outcome_of around.now.config.now result facts.now
        ≡ first_row (not_in_phase (around_of around.now) facts.now 4) (established_again_rows (around_of around.now) facts.now m.now.session_id m.now.timestamp) }
    ensures small { written_limit around.now.config.now result.written ≤ 64 }
{
    if is_own(around, &m.session_id) {
        reject_establish(facts, m, 3)
    } else {
        reject_establish(facts, m, 2)
    }
}

pub fn on_establish(around: &Around<'_>, facts: &mut Facts, m: &Establish<'_>) -> Reply
    requires moment { around.now.moment < 2 ^ 44 }
    requires most { around.now.most ≤ 2 ^ 26 }
    requires sent { facts.old.recorded.sent < 2 ^ 40 }
    ensures reply { outcome_of around.now.config.now result facts.new
        ≡ answer_of (around_of around.now) facts.old (session (establish m.now.session_id m.now.timestamp m.now.keepalive m.now.next_seq m.now.expected_next m.now.credentials.now)) }
    ensures sent { facts.new.recorded.sent ≤ facts.old.recorded.sent }
    ensures small { written_limit around.now.config.now result.written ≤ reply_limit around.now.config.now }
{
    if awaits_client(around, facts) {
        judge_establish(around, facts, m)
    } else if serves_client(around, facts) {
        reject_again(around, facts, m)
    } else {
        Reply::not_in_phase(around, facts, 4)
    }
}

/// An initiator knows that the session is negotiated, and establishes the connection.
fn shake(around: &Around<'_>, facts: &mut Facts) -> Reply
    requires moment { around.now.moment < 2 ^ 44 }
    requires sent { facts.old.recorded.sent < 2 ^ 40 }
    ensures reply { outcome_of around.now.config.now result facts.new ≡ shaken (around_of around.now) facts.old }
    ensures sent { facts.new.recorded.sent ≡ facts.old.recorded.sent }
    ensures small { written_limit around.now.config.now result.written ≤ reply_limit around.now.config.now }
{
    let act = if facts.recorded.negotiated {
        Act::Nothing
    } else {
        Act::Negotiated
    };
    let opening = opening_establish(around, facts);
    facts.recorded.negotiated = true;
    facts.connection.phase = Phase::Establishing;
    Reply::goes_on(around, facts, act, Some(opening))
}

/// The handshake was rejected for good.
fn rejected(around: &Around<'_>, facts: &Facts, template: u16, code: u8) -> Reply
    ensures reply { outcome_of around.now.config.now result facts.now ≡ rejected (around_of around.now) facts.now template code }
    ensures small { written_limit around.now.config.now result.written ≤ 64 }
{
    Reply::ends_with(around, facts, None, Ending::Rejected { template, code })
}

pub fn on_negotiation_response(
    around: &Around<'_>,
    facts: &mut Facts,
    m: &NegotiationResponse<'_>,
) -> Reply
    requires moment { around.now.moment < 2 ^ 44 }
    requires sent { facts.old.recorded.sent < 2 ^ 40 }
    ensures reply { outcome_of around.now.config.now result facts.new
        ≡ answer_of (around_of around.now) facts.old (session (negotiation_response m.now.session_id m.now.request_timestamp m.now.server_flow m.now.credentials.now)) }
    ensures sent { facts.new.recorded.sent ≡ facts.old.recorded.sent }
    ensures small { written_limit around.now.config.now result.written ≤ reply_limit around.now.config.now }
{
    let awaited = is_negotiating(facts.connection.phase);
    if let Some(violation) = out_of_place(around, facts, 2, &m.session_id, awaited) {
        return Reply::breaks(around, facts, violation);
    }
    if m.server_flow == around.config.peer_flow.code() {
        shake(around, facts)
    } else {
        Reply::breaks(around, facts, Violation::OtherSession { template: 2 })
    }
}

pub fn on_negotiation_reject(
    around: &Around<'_>,
    facts: &mut Facts,
    m: &NegotiationReject<'_>,
) -> Reply
    requires moment { around.now.moment < 2 ^ 44 }
    requires sent { facts.old.recorded.sent < 2 ^ 40 }
    ensures reply { outcome_of around.now.config.now result facts.new
        ≡ answer_of (around_of around.now) facts.old (session (negotiation_reject m.now.session_id m.now.request_timestamp m.now.code m.now.reason.now)) }
    ensures sent { facts.new.recorded.sent ≡ facts.old.recorded.sent }
    ensures small { written_limit around.now.config.now result.written ≤ reply_limit around.now.config.now }
{
    let awaited = is_negotiating(facts.connection.phase);
    if let Some(violation) = out_of_place(around, facts, 3, &m.session_id, awaited) {
        return Reply::breaks(around, facts, violation);
    }
    if m.code == 4 {
        shake(around, facts)
    } else {
        rejected(around, facts, 3, m.code)
    }
}

pub fn on_establishment_ack(around: &Around<'_>, facts: &mut Facts, m: &EstablishmentAck) -> Reply
    requires moment { around.now.moment < 2 ^ 44 }
    requires most { around.now.most ≤ 2 ^ 26 }
    requires sent { facts.old.recorded.sent < 2 ^ 40 }
    ensures reply { outcome_of around.now.config.now result facts.new
        ≡ answer_of (around_of around.now) facts.old (session (establishment_ack m.now.session_id m.now.request_timestamp m.now.keepalive m.now.next_seq m.now.expected_next)) }
    ensures sent { facts.new.recorded.sent ≤ facts.old.recorded.sent }
    ensures small { written_limit around.now.config.now result.written ≤ reply_limit around.now.config.now }
{
    let awaited = is_establishing(facts.connection.phase);
    if let Some(violation) = out_of_place(around, facts, 5, &m.session_id, awaited) {
        return Reply::breaks(around, facts, violation);
    }
    if let Some(violation) = announcement_fault(around, facts, 5, m.next_seq) {
        return Reply::breaks(around, facts, violation);
    }
    let skipped = announce(around, facts, m.next_seq);
    let started = take_expected(around, facts, m.expected_next);
    establish(facts, m.keepalive.max(100).min(60000));
    Reply::starts(around, facts, skipped, started)
}

pub fn on_establishment_reject(
    around: &Around<'_>,
    facts: &mut Facts,
    m: &EstablishmentReject<'_>,
) -> Reply
    requires { around.now.moment < 2 ^ 44 }
    ensures reply { outcome_of around.now.config.now result facts.new
        ≡ answer_of (around_of around.now) facts.old (session (establishment_reject m.now.session_id m.now.request_timestamp m.now.code m.now.reason.now)) }
    ensures sent { facts.new.recorded.sent ≡ facts.old.recorded.sent }
    ensures small { written_limit around.now.config.now result.written ≤ reply_limit around.now.config.now }
{
    let awaited = is_establishing(facts.connection.phase);
    if let Some(violation) = out_of_place(around, facts, 6, &m.session_id, awaited) {
        return Reply::breaks(around, facts, violation);
    }
    if m.code == 2 {
        facts.connection.phase = Phase::Negotiating;
        Reply::accepts(around, facts, Some(opening_negotiate(around)))
    } else {
        rejected(around, facts, 6, m.code)
    }
}

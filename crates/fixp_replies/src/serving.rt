//! Replies about the own flow: requests for what is to be sent again, what the peer did not apply, and the answer to the
//! own finish.

ghost use Rattle.std.specs.Prelude.{◌≡◌, ◌<◌, ◌≤◌, ◌^◌, ◌∷◌, [], Ok, Err, Result};
ghost use Rattle.fixp_msgs.specs.Message.{retransmit_request, not_applied, finished_receiving};
ghost use Rattle.fixp_shake.specs.Flows.{is_recoverable};
ghost use Rattle.flow_retrans.specs.Judging.{judged};
ghost use Rattle.fixp_replies.specs.Facts.{around_of, is_own};
ghost use Rattle.fixp_replies.specs.Serving.{request_answered};
ghost use Rattle.fixp_replies.specs.Incoming.{session};
ghost use Rattle.fixp_replies.specs.Replies.{answer_of};
ghost use Rattle.fixp_replies.specs.Outgoing.{outcome_of, written_limit, reply_limit};

use crate::act::{Act, Ending};
use crate::facts::{Around, Facts, OwnFinish};
use crate::guards::out_of_place;
use crate::reply::{Outgoing, Reply};
use crate::standing::{is_own, is_told};
use fixp_msgs::{FinishedReceiving, NotApplied, Range, RetransmitRequest};
use fixp_shake::{Violation, is_established, is_idempotent, is_recoverable};
use flow_retrans::{RetransmitCode, judge};

/// The range that a request asks for is sent again.
fn serve(around: &Around<'_>, facts: &mut Facts, m: &RetransmitRequest) -> Reply
    requires { around.now.moment < 2 ^ 44 }
    ensures reply { outcome_of around.now.config.now result facts.new
        ≡ request_answered (around_of around.now) facts.old m.now.session_id m.now.timestamp (Ok (record { from = m.now.from_seq; count = m.now.count })) }
    ensures sent { facts.new.recorded.sent ≡ facts.old.recorded.sent }
    ensures small { written_limit around.now.config.now result.written ≤ reply_limit around.now.config.now }
{
    facts.connection.serving = Some(Range {
        from: m.from_seq,
        count: u64::from(m.count),
    });
    let retransmission = Outgoing::Retransmission {
        request_timestamp: m.timestamp,
        from: m.from_seq,
        count: m.count,
    };
    Reply::accepts(around, facts, Some(retransmission))
}

/// A request is refused.
fn refuse(around: &Around<'_>, facts: &Facts, m: &RetransmitRequest, code: RetransmitCode) -> Reply
    ensures reply { outcome_of around.now.config.now result facts.now
        ≡ request_answered (around_of around.now) facts.now m.now.session_id m.now.timestamp (Err code) }
    ensures small { written_limit around.now.config.now result.written ≤ 64 }
{
    let _config = around;
    let reject = Outgoing::RetransmitReject {
        session_id: m.session_id,
        request_timestamp: m.timestamp,
        code: code.code(),
    };
    Reply::rejects(facts, reject)
}

/// A request, where none is served.
fn answer_request(around: &Around<'_>, facts: &mut Facts, m: &RetransmitRequest) -> Reply
    requires { around.now.moment < 2 ^ 44 }
    ensures reply { outcome_of around.now.config.now result facts.new
        ≡ request_answered (around_of around.now) facts.old m.now.session_id m.now.timestamp
        (judged (is_own (around_of around.now) m.now.session_id) (is_recoverable around.now.config.now.own_flow) m.now.from_seq m.now.count facts.old.recorded.sent) }
    ensures sent { facts.new.recorded.sent ≡ facts.old.recorded.sent }
    ensures small { written_limit around.now.config.now result.written ≤ reply_limit around.now.config.now }
{
    let own = is_own(around, &m.session_id);
    let recoverable = is_recoverable(around.config.own_flow);
    match judge(own, recoverable, m.from_seq, m.count, facts.recorded.sent) {
        Ok(_range) => serve(around, facts, m),
        Err(code) => refuse(around, facts, m, code),
    }
}

pub fn on_retransmit_request(around: &Around<'_>, facts: &mut Facts, m: &RetransmitRequest) -> Reply
    requires { around.now.moment < 2 ^ 44 }
    ensures reply { outcome_of around.now.config.now result facts.new
        ≡ answer_of (around_of around.now) facts.old (session (retransmit_request m.now.session_id m.now.timestamp m.now.from_seq m.now.count)) }
    ensures sent { facts.new.recorded.sent ≡ facts.old.recorded.sent }
    ensures small { written_limit around.now.config.now result.written ≤ reply_limit around.now.config.now }
{
    let phase = facts.connection.phase;
    if !is_established(phase) {
        return Reply::not_in_phase(around, facts, 9);
    }
    if facts.connection.serving.is_some() {
        let violation = Violation::NotInPhase { template: 9, phase };
        return Reply::ends(around, facts, 4, Ending::Violation(violation));
    }
    answer_request(around, facts, m)
}

pub fn on_not_applied(around: &Around<'_>, facts: &mut Facts, m: &NotApplied) -> Reply
    requires { around.now.moment < 2 ^ 44 }
    ensures reply { outcome_of around.now.config.now result facts.new
        ≡ answer_of (around_of around.now) facts.old (session (not_applied m.now.from_seq m.now.count)) }
    ensures sent { facts.new.recorded.sent ≡ facts.old.recorded.sent }
    ensures small { written_limit around.now.config.now result.written ≤ reply_limit around.now.config.now }
{
    if !is_idempotent(around.config.own_flow) {
        return Reply::accepts(around, facts, None);
    }
    let told = Act::Told {
        from: m.from_seq,
        count: m.count,
    };
    Reply::goes_on(around, facts, told, None)
}

pub fn on_finished_receiving(around: &Around<'_>, facts: &mut Facts, m: &FinishedReceiving) -> Reply
    requires { around.now.moment < 2 ^ 44 }
    ensures reply { outcome_of around.now.config.now result facts.new
        ≡ answer_of (around_of around.now) facts.old (session (finished_receiving m.now.session_id)) }
    ensures sent { facts.new.recorded.sent ≡ facts.old.recorded.sent }
    ensures small { written_limit around.now.config.now result.written ≤ reply_limit around.now.config.now }
{
    let awaited = is_established(facts.connection.phase);
    if let Some(violation) = out_of_place(around, facts, 15, &m.session_id, awaited) {
        return Reply::breaks(around, facts, violation);
    }
    if !is_told(facts.connection.own_finish) {
        return Reply::not_in_phase(around, facts, 15);
    }
    facts.connection.own_finish = OwnFinish::Exchanged;
    Reply::accepts(around, facts, None)
}

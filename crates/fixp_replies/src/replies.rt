//! The reply table: for each incoming message, the function that answers it.

ghost use Rattle.std.specs.Prelude.{◌≡◌, ◌<◌, ◌≤◌, ◌^◌};
ghost use Rattle.fixp_msgs.specs.Message.{message_of, terminate};
ghost use Rattle.fixp_replies.specs.Incoming.{session, incoming_of};
ghost use Rattle.fixp_replies.specs.Facts.{around_of};
ghost use Rattle.fixp_replies.specs.Replies.{answer_of, terminates, reply_of, reply_to_bad_frame};
ghost use Rattle.fixp_replies.specs.Outgoing.{outcome_of, written_limit, reply_limit};

use crate::act::Ending;
use crate::facts::{Around, Facts};
use crate::flowing::{
    on_application, on_finished_sending, on_retransmission, on_retransmit_reject, on_sequence,
};
use crate::handshake::{
    on_establish, on_establishment_ack, on_establishment_reject, on_negotiate,
    on_negotiation_reject, on_negotiation_response,
};
use crate::incoming::Incoming;
use crate::reply::Reply;
use crate::serving::{on_finished_receiving, on_not_applied, on_retransmit_request};
use crate::standing::is_own;
use fixp_msgs::{SessionMsg, Terminate};
use fixp_shake::{Violation, is_closing};

fn on_terminate(around: &Around<'_>, facts: &Facts, m: &Terminate<'_>) -> Reply
    ensures reply { outcome_of around.now.config.now result facts.now
        ≡ answer_of (around_of around.now) facts.now (session (terminate m.now.session_id m.now.code m.now.reason.now)) }
    ensures small { written_limit around.now.config.now result.written ≤ 64 }
{
    if is_own(around, &m.session_id) {
        Reply::ends(around, facts, 1, Ending::PeerTerminated { code: m.code })
    } else {
        Reply::breaks(around, facts, Violation::OtherSession { template: 16 })
    }
}

fn on_session(around: &Around<'_>, facts: &mut Facts, m: &SessionMsg<'_>) -> Reply
    requires moment { around.now.moment < 2 ^ 44 }
    requires most { around.now.most ≤ 2 ^ 26 }
    requires sent { facts.old.recorded.sent < 2 ^ 40 }
    ensures reply { outcome_of around.now.config.now result facts.new ≡ answer_of (around_of around.now) facts.old (session (message_of m.now)) }
    ensures sent { facts.new.recorded.sent ≤ facts.old.recorded.sent }
    ensures small { written_limit around.now.config.now result.written ≤ reply_limit around.now.config.now }
{
    match m {
        SessionMsg::Negotiate(m) => on_negotiate(around, facts, m),
        SessionMsg::NegotiationResponse(m) => on_negotiation_response(around, facts, m),
        SessionMsg::NegotiationReject(m) => on_negotiation_reject(around, facts, m),
        SessionMsg::Establish(m) => on_establish(around, facts, m),
        SessionMsg::EstablishmentAck(m) => on_establishment_ack(around, facts, m),
        SessionMsg::EstablishmentReject(m) => on_establishment_reject(around, facts, m),
        SessionMsg::Sequence(m) => on_sequence(around, facts, m.next_seq),
        SessionMsg::UnsequencedHeartbeat(_) | SessionMsg::Applied(_) => {
            Reply::accepts(around, facts, None)
        }
        SessionMsg::RetransmitRequest(m) => on_retransmit_request(around, facts, m),
        SessionMsg::Retransmission(m) => on_retransmission(around, facts, m),
        SessionMsg::RetransmitReject(m) => on_retransmit_reject(around, facts, m),
        SessionMsg::NotApplied(m) => on_not_applied(around, facts, m),
        SessionMsg::FinishedSending(m) => on_finished_sending(around, facts, m),
        SessionMsg::FinishedReceiving(m) => on_finished_receiving(around, facts, m),
        SessionMsg::Terminate(m) => on_terminate(around, facts, m),
    }
}

/// Whether it is a Terminate of this session.
fn terminates(around: &Around<'_>, incoming: &Incoming<'_>) -> bool
    ensures { result ≡ terminates (around_of around.now) (incoming_of incoming.now) }
{
    match incoming {
        Incoming::Session(SessionMsg::Terminate(m)) => is_own(around, &m.session_id),
        _ => false,
    }
}

/// The first row that applies.
fn answer(around: &Around<'_>, facts: &mut Facts, incoming: &Incoming<'_>) -> Reply
    requires moment { around.now.moment < 2 ^ 44 }
    requires most { around.now.most ≤ 2 ^ 26 }
    requires sent { facts.old.recorded.sent < 2 ^ 40 }
    ensures reply { outcome_of around.now.config.now result facts.new ≡ answer_of (around_of around.now) facts.old (incoming_of incoming.now) }
    ensures sent { facts.new.recorded.sent ≤ facts.old.recorded.sent }
    ensures small { written_limit around.now.config.now result.written ≤ reply_limit around.now.config.now }
{
    match incoming {
        Incoming::Application { .. } => on_application(around, facts),
        Incoming::Session(m) => on_session(around, facts, m),
        Incoming::WrongOrder | Incoming::TooShort => reply_to_bad_frame(around, facts),
        Incoming::Unknown(id) => {
            Reply::breaks(around, facts, Violation::UnknownTemplate { id: *id })
        }
    }
}

/// The reply to an incoming message, of which the facts become those from then on. An end that has written its Terminate looks
/// at nothing but the peer's. The moment is below 2^44 milliseconds, the greatest number at most 2^26, and fewer than 2^40
/// entries were sent.
pub fn reply_to(around: &Around<'_>, facts: &mut Facts, incoming: &Incoming<'_>) -> Reply
    requires moment { around.now.moment < 2 ^ 44 }
    requires most { around.now.most ≤ 2 ^ 26 }
    requires sent { facts.old.recorded.sent < 2 ^ 40 }
    ensures reply { outcome_of around.now.config.now result facts.new ≡ reply_of (around_of around.now) facts.old (incoming_of incoming.now) }
    ensures sent { facts.new.recorded.sent ≤ facts.old.recorded.sent }
    ensures small { written_limit around.now.config.now result.written ≤ reply_limit around.now.config.now }
{
    if is_closing(facts.connection.phase) && !terminates(around, incoming) {
        Reply::ignores(facts)
    } else {
        answer(around, facts, incoming)
    }
}

/// The reply to bytes at this place that are no frame. The facts stay as they are.
pub fn reply_to_bad_frame(around: &Around<'_>, facts: &Facts) -> Reply
    ensures reply { outcome_of around.now.config.now result facts.now ≡ reply_to_bad_frame (around_of around.now) facts.now }
    ensures small { written_limit around.now.config.now result.written ≤ 64 }
{
    Reply::breaks(around, facts, Violation::BadFrame { at: around.at })
}

//! The messages that an end writes, as session messages.

ghost use Rattle.std.specs.Prelude.{◌≡◌, []};
ghost use Rattle.fixp_msgs.specs.Flow.{flow_code};
ghost use Rattle.fixp_msgs.specs.Message.{message_of, negotiate, negotiation_response, establish, establishment_ack, retransmit_request, retransmission};
ghost use Rattle.fixp_replies.specs.Outgoing.{outgoing_message};

use fixp_msgs::{
    Applied, Establish, EstablishmentAck, EstablishmentReject, Expected, FinishedReceiving,
    FinishedSending, Negotiate, NegotiationReject, NegotiationResponse, NotApplied, Retransmission,
    RetransmitReject, RetransmitRequest, Sequence, SessionMsg, Terminate, UnsequencedHeartbeat,
};
use fixp_replies::Outgoing;
use fixp_shake::EndConfig;

fn negotiate(config: &EndConfig, timestamp: u64) -> SessionMsg<'_>
    ensures { message_of result ≡ negotiate config.now.session timestamp (flow_code config.now.own_flow) config.now.credentials }
{
    SessionMsg::Negotiate(Negotiate {
        session_id: config.session,
        timestamp,
        client_flow: config.own_flow.code(),
        credentials: config.credentials.as_slice(),
    })
}

fn negotiation_response(config: &EndConfig, request_timestamp: u64) -> SessionMsg<'static>
    ensures { message_of result ≡ negotiation_response config.now.session request_timestamp (flow_code config.now.own_flow) [] }
{
    SessionMsg::NegotiationResponse(NegotiationResponse {
        session_id: config.session,
        request_timestamp,
        server_flow: config.own_flow.code(),
        credentials: &[],
    })
}

fn establish(
    config: &EndConfig,
    timestamp: u64,
    next_seq: Option<u64>,
    expected_next: Expected,
) -> SessionMsg<'_>
    ensures { message_of result ≡ establish config.now.session timestamp config.now.keepalive next_seq expected_next config.now.credentials }
{
    SessionMsg::Establish(Establish {
        session_id: config.session,
        timestamp,
        keepalive: config.keepalive,
        next_seq,
        expected_next,
        credentials: config.credentials.as_slice(),
    })
}

fn establishment_ack(
    config: &EndConfig,
    request_timestamp: u64,
    next_seq: Option<u64>,
    expected_next: Expected,
) -> SessionMsg<'static>
    ensures { message_of result ≡ establishment_ack config.now.session request_timestamp config.now.keepalive next_seq expected_next }
{
    SessionMsg::EstablishmentAck(EstablishmentAck {
        session_id: config.session,
        request_timestamp,
        keepalive: config.keepalive,
        next_seq,
        expected_next,
    })
}

fn retransmit_request(
    session_id: [u8; 16],
    timestamp: u64,
    from_seq: u64,
    count: u32,
) -> SessionMsg<'static>
    ensures { message_of result ≡ retransmit_request session_id timestamp from_seq count }
{
    SessionMsg::RetransmitRequest(RetransmitRequest {
        session_id,
        timestamp,
        from_seq,
        count,
    })
}

fn retransmission(
    session_id: [u8; 16],
    next_seq: u64,
    request_timestamp: u64,
    count: u32,
) -> SessionMsg<'static>
    ensures { message_of result ≡ retransmission session_id next_seq request_timestamp count }
{
    SessionMsg::Retransmission(Retransmission {
        session_id,
        next_seq,
        request_timestamp,
        count,
    })
}

/// A message of the session of an end.
pub fn session_message(config: &EndConfig, message: Outgoing) -> SessionMsg<'_>
    ensures { message_of result ≡ outgoing_message config.now message }
{
    let session_id = config.session;
    match message {
        Outgoing::Negotiate { timestamp } => negotiate(config, timestamp),
        Outgoing::NegotiationResponse { request_timestamp } => {
            negotiation_response(config, request_timestamp)
        }
        Outgoing::NegotiationReject {
            session_id,
            request_timestamp,
            code,
        } => {
            SessionMsg::NegotiationReject(NegotiationReject {
                session_id,
                request_timestamp,
                code,
                reason: &[],
            })
        }
        Outgoing::Establish {
            timestamp,
            next,
            expected,
        } => { establish(config, timestamp, next, expected) }
        Outgoing::EstablishmentAck {
            request_timestamp,
            next,
            expected,
        } => { establishment_ack(config, request_timestamp, next, expected) }
        Outgoing::EstablishmentReject {
            session_id,
            request_timestamp,
            code,
        } => {
            SessionMsg::EstablishmentReject(EstablishmentReject {
                session_id,
                request_timestamp,
                code,
                reason: &[],
            })
        }
        Outgoing::Sequence { next } => SessionMsg::Sequence(Sequence { next_seq: next }),
        Outgoing::UnsequencedHeartbeat => SessionMsg::UnsequencedHeartbeat(UnsequencedHeartbeat),
        Outgoing::RetransmitRequest {
            timestamp,
            from,
            count,
        } => { retransmit_request(session_id, timestamp, from, count) }
        Outgoing::Retransmission {
            request_timestamp,
            from,
            count,
        } => { retransmission(session_id, from, request_timestamp, count) }
        Outgoing::RetransmitReject {
            session_id,
            request_timestamp,
            code,
        } => {
            SessionMsg::RetransmitReject(RetransmitReject {
                session_id,
                request_timestamp,
                code,
                reason: &[],
            })
        }
        Outgoing::Applied { from, count } => SessionMsg::Applied(Applied {
            from_seq: from,
            count,
        }),
        Outgoing::NotApplied { from, count } => SessionMsg::NotApplied(NotApplied {
            from_seq: from,
            count,
        }),
        Outgoing::FinishedSending { last } => SessionMsg::FinishedSending(FinishedSending {
            session_id,
            last_seq: last,
        }),
        Outgoing::FinishedReceiving => SessionMsg::FinishedReceiving(FinishedReceiving {
            session_id,
        }),
        Outgoing::Terminate { code } => SessionMsg::Terminate(Terminate {
            session_id,
            code,
            reason: &[],
        }),
    }
}

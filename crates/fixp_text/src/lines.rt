//! The lines of a session message.

ghost use Rattle.std.specs.Prelude.{◌≡◌, ◌≤◌, ◌^◌, ◌++◌, codes, decimal, length, OnOk};
ghost use Rattle.fixp_msgs.specs.Message.{message_of};
ghost use Rattle.fixp_msgs.specs.declared.messages.SessionMsg.TheVariants as kinds;
ghost use Rattle.fixp_text.specs.Lines.{answer_lines, end_line, established_lines, field_line, fields_of, flow_lines, lines_of_session, name_of, next_lines, range_lines, reject_lines, request_lines, session_line};
ghost use Rattle.fixp_text.specs.Short.{IsShort};

use crate::fields::{
    push_data, push_expected, push_identifier, push_named, push_number, push_optional,
    push_timestamp,
};
use crate::words::{
    establishment_reject_name, flow_name, negotiation_reject_name, retransmit_reject_name,
    terminate_name,
};
use fixp_msgs::{
    Establish, EstablishmentAck, EstablishmentReject, Expected, FinishedSending, Negotiate,
    NegotiationReject, NegotiationResponse, Retransmission, RetransmitReject, RetransmitRequest,
    SessionMsg, Terminate,
};
use std::alloc::AllocError;
use text_words::push_decimal;

/// Adds the session and the moment of a request.
#[tactic(auto, unfolding(crate::specs::Lines::request_lines))]
fn push_request(lines: &mut Vec<u8>, session: &[u8; 16], timestamp: u64) -> Result<(), AllocError>
    ensures { OnOk result (lines.new.items ≡ lines.old.items ++ request_lines session.now timestamp) }
{
    push_identifier(lines, session)?;
    push_timestamp(lines, b"Timestamp", timestamp)
}

/// Adds the session and the moment of the request that is answered.
#[tactic(auto, unfolding(crate::specs::Lines::answer_lines))]
fn push_answer(lines: &mut Vec<u8>, session: &[u8; 16], timestamp: u64) -> Result<(), AllocError>
    ensures { OnOk result (lines.new.items ≡ lines.old.items ++ answer_lines session.now timestamp) }
{
    push_identifier(lines, session)?;
    push_timestamp(lines, b"RequestTimestamp", timestamp)
}

/// Adds a code with its name, and the reason.
#[tactic(auto, unfolding(crate::specs::Lines::reject_lines))]
fn push_reject(lines: &mut Vec<u8>, word: &[u8], code: u8, reason: &[u8]) -> Result<(), AllocError>
    requires { length reason.now ≤ 2 ^ 20 }
    ensures { OnOk result (lines.new.items ≡ lines.old.items ++ reject_lines word.now code reason.now) }
{
    push_named(lines, b"Code", word, code)?;
    push_data(lines, b"Reason", reason)
}

/// Adds the numbers that stand and are expected next.
#[tactic(auto, unfolding(crate::specs::Lines::next_lines))]
fn push_next(lines: &mut Vec<u8>, next: Option<u64>, expected: Expected) -> Result<(), AllocError>
    ensures { OnOk result (lines.new.items ≡ lines.old.items ++ next_lines next expected) }
{
    push_optional(lines, b"NextSeqNo", next)?;
    push_expected(lines, expected)
}

/// Adds the interval of heartbeats in milliseconds.
fn push_keepalive(lines: &mut Vec<u8>, keepalive: u32) -> Result<(), AllocError>
    ensures { OnOk result (lines.new.items ≡ lines.old.items ++ field_line (codes "KeepaliveInterval") (decimal keepalive)) }
{
    push_number(lines, b"KeepaliveInterval", u64::from(keepalive))
}

/// Adds the interval of heartbeats, and those numbers.
#[tactic(auto, unfolding(crate::specs::Lines::established_lines))]
fn push_established(
    lines: &mut Vec<u8>,
    keepalive: u32,
    next: Option<u64>,
    expected: Expected,
) -> Result<(), AllocError>
    ensures { OnOk result (lines.new.items ≡ lines.old.items ++ established_lines keepalive next expected) }
{
    push_keepalive(lines, keepalive)?;
    push_next(lines, next, expected)
}

/// Adds so many numbers, from this one on.
#[tactic(auto, unfolding(crate::specs::Lines::range_lines))]
fn push_range(lines: &mut Vec<u8>, first: u64, count: u32) -> Result<(), AllocError>
    ensures { OnOk result (lines.new.items ≡ lines.old.items ++ range_lines first count) }
{
    push_number(lines, b"FromSeqNo", first)?;
    push_number(lines, b"Count", u64::from(count))
}

/// Adds a flow with its name, and credentials.
#[tactic(auto, unfolding(crate::specs::Lines::flow_lines))]
fn push_flow(
    lines: &mut Vec<u8>,
    name: &[u8],
    flow: u8,
    credentials: &[u8],
) -> Result<(), AllocError>
    requires { length credentials.now ≤ 2 ^ 20 }
    ensures { OnOk result (lines.new.items ≡ lines.old.items ++ flow_lines name.now flow credentials.now) }
{
    push_named(lines, name, flow_name(flow), flow)?;
    push_data(lines, b"Credentials", credentials)
}

/// Adds the fields of a Negotiate.
fn push_negotiate(lines: &mut Vec<u8>, m: &Negotiate<'_>) -> Result<(), AllocError>
    requires { IsShort (message_of (kinds.Negotiate m.now)) }
    ensures { OnOk result (lines.new.items ≡ lines.old.items ++ fields_of (message_of (kinds.Negotiate m.now))) }
{
    push_request(lines, &m.session_id, m.timestamp)?;
    push_flow(lines, b"ClientFlow", m.client_flow, m.credentials)
}

/// Adds the fields of a NegotiationResponse.
fn push_response(lines: &mut Vec<u8>, m: &NegotiationResponse<'_>) -> Result<(), AllocError>
    requires { IsShort (message_of (kinds.NegotiationResponse m.now)) }
    ensures { OnOk result (lines.new.items ≡ lines.old.items ++ fields_of (message_of (kinds.NegotiationResponse m.now))) }
{
    push_answer(lines, &m.session_id, m.request_timestamp)?;
    push_flow(lines, b"ServerFlow", m.server_flow, m.credentials)
}

/// Adds the fields of an Establish.
fn push_establish(lines: &mut Vec<u8>, m: &Establish<'_>) -> Result<(), AllocError>
    requires { IsShort (message_of (kinds.Establish m.now)) }
    ensures { OnOk result (lines.new.items ≡ lines.old.items ++ fields_of (message_of (kinds.Establish m.now))) }
{
    push_request(lines, &m.session_id, m.timestamp)?;
    push_established(lines, m.keepalive, m.next_seq, m.expected_next)?;
    push_data(lines, b"Credentials", m.credentials)
}

/// Adds the fields of an EstablishmentAck.
fn push_ack(lines: &mut Vec<u8>, m: &EstablishmentAck) -> Result<(), AllocError>
    ensures { OnOk result (lines.new.items ≡ lines.old.items ++ fields_of (message_of (kinds.EstablishmentAck m.now))) }
{
    push_answer(lines, &m.session_id, m.request_timestamp)?;
    push_established(lines, m.keepalive, m.next_seq, m.expected_next)
}

/// Adds the fields of a NegotiationReject.
fn push_negotiation_reject(lines: &mut Vec<u8>, m: &NegotiationReject<'_>) -> Result<(), AllocError>
    requires { IsShort (message_of (kinds.NegotiationReject m.now)) }
    ensures { OnOk result (lines.new.items ≡ lines.old.items ++ fields_of (message_of (kinds.NegotiationReject m.now))) }
{
    push_answer(lines, &m.session_id, m.request_timestamp)?;
    push_reject(lines, negotiation_reject_name(m.code), m.code, m.reason)
}

/// Adds the fields of an EstablishmentReject.
fn push_establishment_reject(
    lines: &mut Vec<u8>,
    m: &EstablishmentReject<'_>,
) -> Result<(), AllocError>
    requires { IsShort (message_of (kinds.EstablishmentReject m.now)) }
    ensures { OnOk result (lines.new.items ≡ lines.old.items ++ fields_of (message_of (kinds.EstablishmentReject m.now))) }
{
    push_answer(lines, &m.session_id, m.request_timestamp)?;
    push_reject(lines, establishment_reject_name(m.code), m.code, m.reason)
}

/// Adds the fields of a RetransmitReject.
fn push_retransmit_reject(lines: &mut Vec<u8>, m: &RetransmitReject<'_>) -> Result<(), AllocError>
    requires { IsShort (message_of (kinds.RetransmitReject m.now)) }
    ensures { OnOk result (lines.new.items ≡ lines.old.items ++ fields_of (message_of (kinds.RetransmitReject m.now))) }
{
    push_answer(lines, &m.session_id, m.request_timestamp)?;
    push_reject(lines, retransmit_reject_name(m.code), m.code, m.reason)
}

/// Adds the fields of a RetransmitRequest.
fn push_retransmit_request(lines: &mut Vec<u8>, m: &RetransmitRequest) -> Result<(), AllocError>
    ensures { OnOk result (lines.new.items ≡ lines.old.items ++ fields_of (message_of (kinds.RetransmitRequest m.now))) }
{
    push_request(lines, &m.session_id, m.timestamp)?;
    push_range(lines, m.from_seq, m.count)
}

/// Adds the fields of a Retransmission.
fn push_retransmission(lines: &mut Vec<u8>, m: &Retransmission) -> Result<(), AllocError>
    ensures { OnOk result (lines.new.items ≡ lines.old.items ++ fields_of (message_of (kinds.Retransmission m.now))) }
{
    push_identifier(lines, &m.session_id)?;
    push_number(lines, b"NextSeqNo", m.next_seq)?;
    push_timestamp(lines, b"RequestTimestamp", m.request_timestamp)?;
    push_number(lines, b"Count", u64::from(m.count))
}

/// Adds the fields of a FinishedSending.
fn push_finished_sending(lines: &mut Vec<u8>, m: &FinishedSending) -> Result<(), AllocError>
    ensures { OnOk result (lines.new.items ≡ lines.old.items ++ fields_of (message_of (kinds.FinishedSending m.now))) }
{
    push_identifier(lines, &m.session_id)?;
    push_optional(lines, b"LastSeqNo", m.last_seq)
}

/// Adds the fields of a Terminate.
fn push_terminate(lines: &mut Vec<u8>, m: &Terminate<'_>) -> Result<(), AllocError>
    requires { IsShort (message_of (kinds.Terminate m.now)) }
    ensures { OnOk result (lines.new.items ≡ lines.old.items ++ fields_of (message_of (kinds.Terminate m.now))) }
{
    push_identifier(lines, &m.session_id)?;
    push_reject(lines, terminate_name(m.code), m.code, m.reason)
}

/// Adds the fields of a message.
fn push_fields(lines: &mut Vec<u8>, message: &SessionMsg<'_>) -> Result<(), AllocError>
    requires { IsShort (message_of message.now) }
    ensures { OnOk result (lines.new.items ≡ lines.old.items ++ fields_of (message_of message.now)) }
{
    match message {
        SessionMsg::Negotiate(m) => push_negotiate(lines, m),
        SessionMsg::NegotiationResponse(m) => push_response(lines, m),
        SessionMsg::NegotiationReject(m) => push_negotiation_reject(lines, m),
        SessionMsg::Establish(m) => push_establish(lines, m),
        SessionMsg::EstablishmentAck(m) => push_ack(lines, m),
        SessionMsg::EstablishmentReject(m) => push_establishment_reject(lines, m),
        SessionMsg::Sequence(m) => push_number(lines, b"NextSeqNo", m.next_seq),
        SessionMsg::UnsequencedHeartbeat(_m) => Ok(()),
        SessionMsg::RetransmitRequest(m) => push_retransmit_request(lines, m),
        SessionMsg::Retransmission(m) => push_retransmission(lines, m),
        SessionMsg::RetransmitReject(m) => push_retransmit_reject(lines, m),
        SessionMsg::Applied(m) => push_range(lines, m.from_seq, m.count),
        SessionMsg::NotApplied(m) => push_range(lines, m.from_seq, m.count),
        SessionMsg::FinishedSending(m) => push_finished_sending(lines, m),
        SessionMsg::FinishedReceiving(m) => push_identifier(lines, &m.session_id),
        SessionMsg::Terminate(m) => push_terminate(lines, m),
    }
}

/// The name of a message.
#[tactic(auto, unfolding(crate::specs::Lines::name_of))]
fn name_of(message: &SessionMsg<'_>) -> &'static [u8]
    ensures { result.now ≡ name_of (message_of message.now) }
{
    match message {
        SessionMsg::Negotiate(_m) => b"Negotiate",
        SessionMsg::NegotiationResponse(_m) => b"NegotiationResponse",
        SessionMsg::NegotiationReject(_m) => b"NegotiationReject",
        SessionMsg::Establish(_m) => b"Establish",
        SessionMsg::EstablishmentAck(_m) => b"EstablishmentAck",
        SessionMsg::EstablishmentReject(_m) => b"EstablishmentReject",
        SessionMsg::Sequence(_m) => b"Sequence",
        SessionMsg::UnsequencedHeartbeat(_m) => b"UnsequencedHeartbeat",
        SessionMsg::RetransmitRequest(_m) => b"RetransmitRequest",
        SessionMsg::Retransmission(_m) => b"Retransmission",
        SessionMsg::RetransmitReject(_m) => b"RetransmitReject",
        SessionMsg::Applied(_m) => b"Applied",
        SessionMsg::NotApplied(_m) => b"NotApplied",
        SessionMsg::FinishedSending(_m) => b"FinishedSending",
        SessionMsg::FinishedReceiving(_m) => b"FinishedReceiving",
        SessionMsg::Terminate(_m) => b"Terminate",
    }
}

/// Adds the line that names a message.
#[tactic(auto, unfolding(crate::specs::Lines::session_line))]
fn push_title(lines: &mut Vec<u8>, version: u16, name: &[u8]) -> Result<(), AllocError>
    ensures { OnOk result (lines.new.items ≡ lines.old.items ++ session_line version name.now) }
{
    lines.extend_from_slice(b"session ")?;
    lines.extend_from_slice(name)?;
    lines.extend_from_slice(b" version ")?;
    push_decimal(lines, u64::from(version))?;
    lines.extend_from_slice(b"\n")
}

/// Adds the lines of a session message, whose header has this version: `session NAME version V`, a line for each field, and `end`.
///
/// # Errors
/// Want of memory.
#[tactic(auto, unfolding(crate::specs::Lines::lines_of_session))]
pub fn push_session(
    lines: &mut Vec<u8>,
    version: u16,
    message: &SessionMsg<'_>,
) -> Result<(), AllocError>
    requires { IsShort (message_of message.now) }
    ensures { OnOk result (lines.new.items ≡ lines.old.items ++ lines_of_session version (message_of message.now)) }
{
    push_title(lines, version, name_of(message))?;
    push_fields(lines, message)?;
    lines.extend_from_slice(b"end\n")
}

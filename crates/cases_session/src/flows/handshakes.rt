//! The checks of a handshake: an acceptor's answers to Negotiate and Establish, and an initiator's steps at the replies.

ghost use Rattle.std.specs.Prelude.{IsSome};
ghost use Rattle.fixp_msgs.specs.Message.{message_of};
ghost use Rattle.fixp_shake.specs.Handshake.{reply_step};

use cases_words::{bytes, halves, number};
use fixp_msgs::{
    Establish, EstablishmentAck, EstablishmentReject, Expected, Flow, Negotiate, NegotiationReject,
    NegotiationResponse, SessionMsg,
};
use fixp_shake::{EndConfig, Role, after_reply, judge_establish, judge_negotiate};
use sbe_value::Bytes;
use std::alloc::{AllocError, Global};

/// The identifier of the session, and one of another.
const OWN: [u8; 16] = [7; 16];

const OTHER: [u8; 16] = [8; 16];

/// An end whose peer sends an idempotent flow, with the credentials `aa`.
fn end(alloc: Global, role: Role) -> Result<EndConfig, AllocError> {
    Ok(EndConfig {
        role,
        session: OWN,
        own_flow: Flow::None,
        peer_flow: Flow::Idempotent,
        keepalive: 1000,
        credentials: Bytes::from(bytes(alloc, "aa")?),
        version: 0,
    })
}

/// The identifier that a word names.
fn session(word: &str) -> [u8; 16] {
    if word == "own" { OWN } else { OTHER }
}

/// The answer to a Negotiate of a session, with a flow and credentials, where the session is `negotiated` or not.
pub fn negotiate_line(alloc: Global, words: &str) -> Result<String, AllocError> {
    let (of, rest) = halves(words);
    let (flow, rest) = halves(rest);
    let (spelled, facts) = halves(rest);
    let credentials = bytes(alloc, spelled)?;
    let request = Negotiate {
        session_id: session(of),
        timestamp: 1,
        client_flow: u8::try_from(number(flow)).unwrap_or(0),
        credentials: credentials.as_slice(),
    };
    let config = end(alloc, Role::Acceptor)?;
    let answer = judge_negotiate(&config, facts == "negotiated", &request);
    format!(in alloc; "negotiate {words}: {answer:?}")
}

/// The answer to an Establish of a session, with an interval and credentials, where the connection is `established` or not,
/// or the session not even `negotiated`.
pub fn establish_line(alloc: Global, words: &str) -> Result<String, AllocError> {
    let (of, rest) = halves(words);
    let (keepalive, rest) = halves(rest);
    let (spelled, facts) = halves(rest);
    let credentials = bytes(alloc, spelled)?;
    let request = Establish {
        session_id: session(of),
        timestamp: 1,
        keepalive: u32::try_from(number(keepalive)).unwrap_or(0),
        next_seq: Some(1),
        expected_next: Expected::Absent,
        credentials: credentials.as_slice(),
    };
    let config = end(alloc, Role::Acceptor)?;
    let negotiated = facts == "negotiated" || facts == "established";
    let answer = judge_establish(&config, negotiated, facts == "established", &request);
    format!(in alloc; "establish {words}: {answer:?}")
}

/// A reply of the configured session, by its name and its flow or code.
fn reply<'a>(config: &EndConfig, name: &str, code: u8) -> SessionMsg<'a>
    ensures { IsSome (reply_step config.now (message_of result)) }
{
    let session_id = config.session;
    match name {
        "response" => SessionMsg::NegotiationResponse(NegotiationResponse {
            session_id,
            request_timestamp: 1,
            server_flow: code,
            credentials: &[],
        }),
        "negotiation-reject" => SessionMsg::NegotiationReject(NegotiationReject {
            session_id,
            request_timestamp: 1,
            code,
            reason: &[],
        }),
        "acknowledgement" => SessionMsg::EstablishmentAck(EstablishmentAck {
            session_id,
            request_timestamp: 1,
            keepalive: 1000,
            next_seq: Some(1),
            expected_next: Expected::Absent,
        }),
        _ => SessionMsg::EstablishmentReject(EstablishmentReject {
            session_id,
            request_timestamp: 1,
            code,
            reason: &[],
        }),
    }
}

/// An initiator's step at a reply.
pub fn reply_line(alloc: Global, words: &str) -> Result<String, AllocError> {
    let (name, code) = halves(words);
    let config = end(alloc, Role::Initiator)?;
    let message = reply(&config, name, u8::try_from(number(code)).unwrap_or(0));
    let step = after_reply(&config, &message);
    format!(in alloc; "reply {words}: {step:?}")
}

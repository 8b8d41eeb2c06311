//! Reading a session message from the bytes behind a frame's encoding type. One function reads each template.

ghost use Rattle.std.specs.Prelude.{◌≡◌, ℕ, ◌+◌, ◌≤◌, ◌↔◌, List, [], ◌∷◌, length, drop, take, true, false, Some, IfOk, IsOkAnd, IfErr, IsErrOf, IfSome, IfNone};
ghost use Rattle.std.specs.Int.{w16, w32, w64, from_le_bytes};
ghost use Rattle.sbe_prim.specs.declared.Order.TheVariants.{Little};
ghost use Rattle.fixp_msgs.specs.declared.frames.FrameKind.TheVariants.{Session};
ghost use Rattle.fixp_msgs.specs.declared.reading.MsgFault.TheVariants as faults;
ghost use Rattle.fixp_msgs.specs.Header.{kind_of, schema_in, template_in, version_in, block_length_in};
ghost use Rattle.fixp_msgs.specs.Message.{Message, message_of};
ghost use Rattle.fixp_msgs.specs.Table.{Field, is_template, established_block};
ghost use Rattle.fixp_msgs.specs.Grammar.{Spells, IsBlock, BeginsWithDatum, HasBody, unless_null, expected_at};
ghost use Rattle.fixp_msgs.specs.Reading.{Answers, HasCause, Lacks, Finds};

use crate::messages::{
    Applied, Establish, EstablishmentAck, EstablishmentReject, Expected, FinishedReceiving,
    FinishedSending, Negotiate, NegotiationReject, NegotiationResponse, NotApplied, Retransmission,
    RetransmitReject, RetransmitRequest, Sequence, SessionMsg, Terminate, UnsequencedHeartbeat,
};

/// Why no session message was read.
#[derive(Clone, Copy, Debug)]
pub enum MsgFault {
    /// The template is none of the session's, which are 1 to 16.
    BadTemplate { id: u16 },
    /// The block or the data of the template do not stand whole in the bytes.
    Short,
}

/// The session message that the bytes spell. `message` is a session message from its SBE header
/// on (SBE 1.0, "Message structure"): longer blocks, bytes after the last element and any version
/// are taken. At version 0 no expected number is there, at every other one it is.
pub fn read<'a>(message: &'a [u8]) -> Result<SessionMsg<'a>, MsgFault>
    requires header { 8 ≤ length message.now }
    requires session { kind_of Little message.now ≡ Session }
    ensures found { IfOk result (λ m. Spells message.now (message_of m)) }
    ensures only { (m : Message) → Spells message.now m → IsOkAnd result (λ r. message_of r ≡ m) }
    // A fault has its cause, and comes wherever it has.
    ensures cause { IfErr result (HasCause message.now) }
    ensures bad_template { is_template (template_in message.now) ≡ false → IsErrOf result (faults.BadTemplate (template_in message.now)) }
    ensures short { HasCause message.now faults.Short → IsErrOf result faults.Short }
{
    by_template(message)
}

/// The same, as one fact.
pub(crate) fn by_template<'a>(message: &'a [u8]) -> Result<SessionMsg<'a>, MsgFault>
    requires header { 8 ≤ length message.now }
    requires session { schema_in message.now ≡ 0xF011 }
    ensures { Answers message.now result }
{
    match u16_at(message, 2) {
        Negotiate::TEMPLATE => negotiate(message).ok_or(MsgFault::Short),
        NegotiationResponse::TEMPLATE => negotiation_response(message).ok_or(MsgFault::Short),
        NegotiationReject::TEMPLATE => negotiation_reject(message).ok_or(MsgFault::Short),
        Establish::TEMPLATE => establish(message).ok_or(MsgFault::Short),
        EstablishmentAck::TEMPLATE => establishment_ack(message).ok_or(MsgFault::Short),
        EstablishmentReject::TEMPLATE => establishment_reject(message).ok_or(MsgFault::Short),
        Sequence::TEMPLATE => sequence(message).ok_or(MsgFault::Short),
        UnsequencedHeartbeat::TEMPLATE => unsequenced_heartbeat(message).ok_or(MsgFault::Short),
        RetransmitRequest::TEMPLATE => retransmit_request(message).ok_or(MsgFault::Short),
        Retransmission::TEMPLATE => retransmission(message).ok_or(MsgFault::Short),
        RetransmitReject::TEMPLATE => retransmit_reject(message).ok_or(MsgFault::Short),
        Applied::TEMPLATE => applied(message).ok_or(MsgFault::Short),
        NotApplied::TEMPLATE => not_applied(message).ok_or(MsgFault::Short),
        FinishedSending::TEMPLATE => finished_sending(message).ok_or(MsgFault::Short),
        FinishedReceiving::TEMPLATE => finished_receiving(message).ok_or(MsgFault::Short),
        Terminate::TEMPLATE => terminate(message).ok_or(MsgFault::Short),
        id => Err(MsgFault::BadTemplate { id }),
    }
}

fn u16_at(bytes: &[u8], at: usize) -> u16
    requires { at + 2 ≤ length bytes.now }
    ensures { result ≡ from_le_bytes w16 (drop at bytes.now) }
{
    u16::from_le_bytes([bytes[at], bytes[at + 1]])
}

fn u32_at(bytes: &[u8], at: usize) -> u32
    requires { at + 4 ≤ length bytes.now }
    ensures { result ≡ from_le_bytes w32 (drop at bytes.now) }
{
    u32::from_le_bytes([bytes[at], bytes[at + 1], bytes[at + 2], bytes[at + 3]])
}

fn u64_at(bytes: &[u8], at: usize) -> u64
    requires { at + 8 ≤ length bytes.now }
    ensures { result ≡ from_le_bytes w64 (drop at bytes.now) }
{
    let (_, from) = bytes.split_at(at);
    u64::from_le_bytes([
        from[0], from[1], from[2], from[3], from[4], from[5], from[6], from[7],
    ])
}

fn optional_at(bytes: &[u8], at: usize) -> Option<u64>
    requires { at + 8 ≤ length bytes.now }
    ensures { result ≡ unless_null (from_le_bytes w64 (drop at bytes.now)) }
{
    let number = u64_at(bytes, at);
    if number == u64::MAX {
        None
    } else {
        Some(number)
    }
}

/// The length of the block of Establish and EstablishmentAck at a version.
fn established_size(version: u16) -> usize
    ensures { result ≡ established_block version }
{
    if version == 0 { 36 } else { 44 }
}

/// The number that the writer of a block of this version expects.
fn expected_at(block: &[u8], version: u16) -> Expected
    requires { established_block version ≤ length block.now }
    ensures { result ≡ expected_at version (from_le_bytes w64 (drop 36 block.now)) }
{
    if version == 0 {
        return Expected::Absent;
    }
    match u64_at(block, 36) {
        u64::MAX => Expected::Null,
        number => Expected::Number(number),
    }
}

fn identifier(block: &[u8]) -> [u8; 16]
    requires { 16 ≤ length block.now }
    ensures { result ≡ take 16 block.now }
{
    let (front, _) = block.split_at(16);
    let mut id = [0; 16];
    id.copy_from_slice(front);
    id
}

/// The block of the stated length and what stands behind it, where the block is whole and has
/// the bytes that are needed.
fn parts(message: &[u8], needed: usize) -> Option<(&[u8], &[u8])>
    requires { 8 ≤ length message.now }
    ensures found { IfSome result (λ p. IsBlock message.now needed p.0.now p.1.now) }
    ensures enough { IfSome result (λ p. needed ≤ length p.0.now) }
    ensures none { IfNone result (Lacks message.now needed false) }
{
    let length = u16_at(message, 0) as usize;
    let (_, body) = message.split_at(8);
    if length < needed || body.len() < length {
        return None;
    }
    Some(body.split_at(length))
}

/// The datum at the front: two bytes of length, and that many bytes.
fn datum(bytes: &[u8]) -> Option<&[u8]>
    ensures found { IfSome result (λ t. BeginsWithDatum bytes.now t.now) }
    ensures none { IfNone result ((t : List ℕ) → BeginsWithDatum bytes.now t → ⊥) }
{
    if bytes.len() < 2 {
        return None;
    }
    let length = u16_at(bytes, 0) as usize;
    let (_, rest) = bytes.split_at(2);
    if rest.len() < length {
        return None;
    }
    let (datum, _) = rest.split_at(length);
    Some(datum)
}

/// The block, and the datum that stands behind it.
fn parts_and_datum(message: &[u8], needed: usize) -> Option<(&[u8], &[u8])>
    requires { 8 ≤ length message.now }
    ensures found { IfSome result (λ p. (behind : List ℕ) × IsBlock message.now needed p.0.now behind × BeginsWithDatum behind p.1.now) }
    ensures enough { IfSome result (λ p. needed ≤ length p.0.now) }
    ensures none { IfNone result (Lacks message.now needed true) }
{
    match parts(message, needed) {
        Some((block, behind)) => Some((block, datum(behind)?)),
        None => None,
    }
}

/// What the answers to requests have in common with Negotiate.
#[derive(Clone, Copy)]
struct Dated<'a> {
    session_id: [u8; 16],
    timestamp: u64,
    code: u8,
    datum: &'a [u8],
}

fn dated_parts<'a>(message: &'a [u8]) -> Option<Dated<'a>>
    requires { 8 ≤ length message.now }
    ensures found { IfSome result (λ d. HasBody message.now (Field.identifier d.session_id ∷ Field.u64 d.timestamp ∷ Field.u8 d.code ∷ []) (Some d.datum.now)) }
    ensures none { IfNone result (Lacks message.now 25 true) }
{
    let (block, datum) = parts_and_datum(message, 25)?;
    Some(Dated {
        session_id: identifier(block),
        timestamp: u64_at(block, 16),
        code: block[24],
        datum,
    })
}

fn negotiate<'a>(message: &'a [u8]) -> Option<SessionMsg<'a>>
    requires { 8 ≤ length message.now }
    ensures { Finds message.now Negotiate.TEMPLATE Negotiate.BLOCK true result }
{
    let dated = dated_parts(message)?;
    Some(SessionMsg::Negotiate(Negotiate {
        session_id: dated.session_id,
        timestamp: dated.timestamp,
        client_flow: dated.code,
        credentials: dated.datum,
    }))
}

fn negotiation_response<'a>(message: &'a [u8]) -> Option<SessionMsg<'a>>
    requires { 8 ≤ length message.now }
    ensures { Finds message.now NegotiationResponse.TEMPLATE NegotiationResponse.BLOCK true result }
{
    let dated = dated_parts(message)?;
    Some(SessionMsg::NegotiationResponse(NegotiationResponse {
        session_id: dated.session_id,
        request_timestamp: dated.timestamp,
        server_flow: dated.code,
        credentials: dated.datum,
    }))
}

fn negotiation_reject<'a>(message: &'a [u8]) -> Option<SessionMsg<'a>>
    requires { 8 ≤ length message.now }
    ensures { Finds message.now NegotiationReject.TEMPLATE NegotiationReject.BLOCK true result }
{
    let dated = dated_parts(message)?;
    Some(SessionMsg::NegotiationReject(NegotiationReject {
        session_id: dated.session_id,
        request_timestamp: dated.timestamp,
        code: dated.code,
        reason: dated.datum,
    }))
}

fn establish<'a>(message: &'a [u8]) -> Option<SessionMsg<'a>>
    requires { 8 ≤ length message.now }
    ensures { Finds message.now Establish.TEMPLATE (established_block (version_in message.now)) true result }
{
    let version = u16_at(message, 6);
    let (block, credentials) = parts_and_datum(message, established_size(version))?;
    Some(SessionMsg::Establish(Establish {
        session_id: identifier(block),
        timestamp: u64_at(block, 16),
        keepalive: u32_at(block, 24),
        next_seq: optional_at(block, 28),
        expected_next: expected_at(block, version),
        credentials,
    }))
}

fn establishment_ack<'a>(message: &'a [u8]) -> Option<SessionMsg<'a>>
    requires { 8 ≤ length message.now }
    ensures { Finds message.now EstablishmentAck.TEMPLATE (established_block (version_in message.now)) false result }
{
    let version = u16_at(message, 6);
    let (block, _) = parts(message, established_size(version))?;
    Some(SessionMsg::EstablishmentAck(EstablishmentAck {
        session_id: identifier(block),
        request_timestamp: u64_at(block, 16),
        keepalive: u32_at(block, 24),
        next_seq: optional_at(block, 28),
        expected_next: expected_at(block, version),
    }))
}

fn establishment_reject<'a>(message: &'a [u8]) -> Option<SessionMsg<'a>>
    requires { 8 ≤ length message.now }
    ensures { Finds message.now EstablishmentReject.TEMPLATE EstablishmentReject.BLOCK true result }
{
    let dated = dated_parts(message)?;
    Some(SessionMsg::EstablishmentReject(EstablishmentReject {
        session_id: dated.session_id,
        request_timestamp: dated.timestamp,
        code: dated.code,
        reason: dated.datum,
    }))
}

fn sequence<'a>(message: &'a [u8]) -> Option<SessionMsg<'a>>
    requires { 8 ≤ length message.now }
    ensures { Finds message.now Sequence.TEMPLATE Sequence.BLOCK false result }
{
    let (block, _) = parts(message, Sequence::BLOCK as usize)?;
    Some(SessionMsg::Sequence(Sequence {
        next_seq: u64_at(block, 0),
    }))
}

fn unsequenced_heartbeat<'a>(message: &'a [u8]) -> Option<SessionMsg<'a>>
    requires { 8 ≤ length message.now }
    ensures { Finds message.now UnsequencedHeartbeat.TEMPLATE UnsequencedHeartbeat.BLOCK false result }
{
    let (_, _) = parts(message, UnsequencedHeartbeat::BLOCK as usize)?;
    Some(SessionMsg::UnsequencedHeartbeat(UnsequencedHeartbeat))
}

fn retransmit_request<'a>(message: &'a [u8]) -> Option<SessionMsg<'a>>
    requires { 8 ≤ length message.now }
    ensures { Finds message.now RetransmitRequest.TEMPLATE RetransmitRequest.BLOCK false result }
{
    let (block, _) = parts(message, RetransmitRequest::BLOCK as usize)?;
    Some(SessionMsg::RetransmitRequest(RetransmitRequest {
        session_id: identifier(block),
        timestamp: u64_at(block, 16),
        from_seq: u64_at(block, 24),
        count: u32_at(block, 32),
    }))
}

fn retransmission<'a>(message: &'a [u8]) -> Option<SessionMsg<'a>>
    requires { 8 ≤ length message.now }
    ensures { Finds message.now Retransmission.TEMPLATE Retransmission.BLOCK false result }
{
    let (block, _) = parts(message, Retransmission::BLOCK as usize)?;
    Some(SessionMsg::Retransmission(Retransmission {
        session_id: identifier(block),
        next_seq: u64_at(block, 16),
        request_timestamp: u64_at(block, 24),
        count: u32_at(block, 32),
    }))
}

fn retransmit_reject<'a>(message: &'a [u8]) -> Option<SessionMsg<'a>>
    requires { 8 ≤ length message.now }
    ensures { Finds message.now RetransmitReject.TEMPLATE RetransmitReject.BLOCK true result }
{
    let dated = dated_parts(message)?;
    Some(SessionMsg::RetransmitReject(RetransmitReject {
        session_id: dated.session_id,
        request_timestamp: dated.timestamp,
        code: dated.code,
        reason: dated.datum,
    }))
}

fn applied<'a>(message: &'a [u8]) -> Option<SessionMsg<'a>>
    requires { 8 ≤ length message.now }
    ensures { Finds message.now Applied.TEMPLATE Applied.BLOCK false result }
{
    let (block, _) = parts(message, Applied::BLOCK as usize)?;
    Some(SessionMsg::Applied(Applied {
        from_seq: u64_at(block, 0),
        count: u32_at(block, 8),
    }))
}

fn not_applied<'a>(message: &'a [u8]) -> Option<SessionMsg<'a>>
    requires { 8 ≤ length message.now }
    ensures { Finds message.now NotApplied.TEMPLATE NotApplied.BLOCK false result }
{
    let (block, _) = parts(message, NotApplied::BLOCK as usize)?;
    Some(SessionMsg::NotApplied(NotApplied {
        from_seq: u64_at(block, 0),
        count: u32_at(block, 8),
    }))
}

fn finished_sending<'a>(message: &'a [u8]) -> Option<SessionMsg<'a>>
    requires { 8 ≤ length message.now }
    ensures { Finds message.now FinishedSending.TEMPLATE FinishedSending.BLOCK false result }
{
    let (block, _) = parts(message, FinishedSending::BLOCK as usize)?;
    Some(SessionMsg::FinishedSending(FinishedSending {
        session_id: identifier(block),
        last_seq: optional_at(block, 16),
    }))
}

fn finished_receiving<'a>(message: &'a [u8]) -> Option<SessionMsg<'a>>
    requires { 8 ≤ length message.now }
    ensures { Finds message.now FinishedReceiving.TEMPLATE FinishedReceiving.BLOCK false result }
{
    let (block, _) = parts(message, FinishedReceiving::BLOCK as usize)?;
    Some(SessionMsg::FinishedReceiving(FinishedReceiving {
        session_id: identifier(block),
    }))
}

fn terminate<'a>(message: &'a [u8]) -> Option<SessionMsg<'a>>
    requires { 8 ≤ length message.now }
    ensures { Finds message.now Terminate.TEMPLATE Terminate.BLOCK true result }
{
    let (block, reason) = parts_and_datum(message, Terminate::BLOCK as usize)?;
    Some(SessionMsg::Terminate(Terminate {
        session_id: identifier(block),
        code: block[16],
        reason,
    }))
}

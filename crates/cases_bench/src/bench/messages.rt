//! The sixteen session messages as a benchmark makes and reads them: each field of a message has the same number, as much of it
//! as the field holds, and what is read of it is a sum.
//! Relies on `fixp_msgs`.

ghost use Rattle.std.specs.Prelude.{◌≡◌, ◌-◌, ◌<◌, ◌≤◌, ◌^◌, length};
ghost use Rattle.fixp_msgs.specs.Message.{message_of};
ghost use Rattle.fixp_msgs.specs.Canonical.{IsWritable};

use fixp_msgs::{
    Applied, Establish, EstablishmentAck, EstablishmentReject, Expected, FinishedReceiving,
    FinishedSending, Negotiate, NegotiationReject, NegotiationResponse, NotApplied, Retransmission,
    RetransmitReject, RetransmitRequest, Sequence, SessionMsg, Terminate, UnsequencedHeartbeat,
};

/// The message of a template and a session, with this number in each field, as much of it as the field holds; a Terminate
/// where no message has the template.
pub fn made<'a>(template: u16, id: &[u8; 16], number: u64, datum: &'a [u8]) -> SessionMsg<'a>
    requires number { number < 2 ^ 64 - 1 }
    requires datum { length datum.now ≤ 2048 }
    ensures writable { IsWritable (message_of result) }
{
    match template {
        1 => negotiate(id, number, datum),
        2 => negotiation_response(id, number, datum),
        3 => negotiation_reject(id, number, datum),
        4 => establish(id, number, datum),
        5 => establishment_ack(id, number),
        6 => establishment_reject(id, number, datum),
        7 => sequence(number),
        8 => SessionMsg::UnsequencedHeartbeat(UnsequencedHeartbeat),
        9 => retransmit_request(id, number),
        10 => retransmission(id, number),
        11 => retransmit_reject(id, number, datum),
        12 => applied(number),
        13 => not_applied(number),
        14 => finished_sending(id, number),
        15 => SessionMsg::FinishedReceiving(FinishedReceiving { session_id: *id }),
        _ => terminate(id, number, datum),
    }
}

fn negotiate<'a>(id: &[u8; 16], number: u64, datum: &'a [u8]) -> SessionMsg<'a>
    requires datum { length datum.now ≤ 2048 }
    ensures writable { IsWritable (message_of result) }
{
    SessionMsg::Negotiate(Negotiate {
        session_id: *id,
        timestamp: number,
        client_flow: (number % 256) as u8,
        credentials: datum,
    })
}

fn negotiation_response<'a>(id: &[u8; 16], number: u64, datum: &'a [u8]) -> SessionMsg<'a>
    requires datum { length datum.now ≤ 2048 }
    ensures writable { IsWritable (message_of result) }
{
    SessionMsg::NegotiationResponse(NegotiationResponse {
        session_id: *id,
        request_timestamp: number,
        server_flow: (number % 256) as u8,
        credentials: datum,
    })
}

fn negotiation_reject<'a>(id: &[u8; 16], number: u64, datum: &'a [u8]) -> SessionMsg<'a>
    requires datum { length datum.now ≤ 2048 }
    ensures writable { IsWritable (message_of result) }
{
    SessionMsg::NegotiationReject(NegotiationReject {
        session_id: *id,
        request_timestamp: number,
        code: (number % 256) as u8,
        reason: datum,
    })
}

fn establish<'a>(id: &[u8; 16], number: u64, datum: &'a [u8]) -> SessionMsg<'a>
    requires number { number < 2 ^ 64 - 1 }
    requires datum { length datum.now ≤ 2048 }
    ensures writable { IsWritable (message_of result) }
{
    SessionMsg::Establish(Establish {
        session_id: *id,
        timestamp: number,
        keepalive: (number % 0x1_0000_0000) as u32,
        next_seq: Some(number),
        expected_next: Expected::Absent,
        credentials: datum,
    })
}

fn establishment_ack(id: &[u8; 16], number: u64) -> SessionMsg<'static>
    requires number { number < 2 ^ 64 - 1 }
    ensures writable { IsWritable (message_of result) }
{
    SessionMsg::EstablishmentAck(EstablishmentAck {
        session_id: *id,
        request_timestamp: number,
        keepalive: (number % 0x1_0000_0000) as u32,
        next_seq: Some(number),
        expected_next: Expected::Absent,
    })
}

fn establishment_reject<'a>(id: &[u8; 16], number: u64, datum: &'a [u8]) -> SessionMsg<'a>
    requires datum { length datum.now ≤ 2048 }
    ensures writable { IsWritable (message_of result) }
{
    SessionMsg::EstablishmentReject(EstablishmentReject {
        session_id: *id,
        request_timestamp: number,
        code: (number % 256) as u8,
        reason: datum,
    })
}

fn sequence(number: u64) -> SessionMsg<'static>
    ensures writable { IsWritable (message_of result) }
{
    SessionMsg::Sequence(Sequence { next_seq: number })
}

fn retransmit_request(id: &[u8; 16], number: u64) -> SessionMsg<'static>
    ensures writable { IsWritable (message_of result) }
{
    SessionMsg::RetransmitRequest(RetransmitRequest {
        session_id: *id,
        timestamp: number,
        from_seq: number,
        count: (number % 0x1_0000_0000) as u32,
    })
}

fn retransmission(id: &[u8; 16], number: u64) -> SessionMsg<'static>
    ensures writable { IsWritable (message_of result) }
{
    SessionMsg::Retransmission(Retransmission {
        session_id: *id,
        next_seq: number,
        request_timestamp: number,
        count: (number % 0x1_0000_0000) as u32,
    })
}

fn retransmit_reject<'a>(id: &[u8; 16], number: u64, datum: &'a [u8]) -> SessionMsg<'a>
    requires datum { length datum.now ≤ 2048 }
    ensures writable { IsWritable (message_of result) }
{
    SessionMsg::RetransmitReject(RetransmitReject {
        session_id: *id,
        request_timestamp: number,
        code: (number % 256) as u8,
        reason: datum,
    })
}

fn applied(number: u64) -> SessionMsg<'static>
    ensures writable { IsWritable (message_of result) }
{
    SessionMsg::Applied(Applied {
        from_seq: number,
        count: (number % 0x1_0000_0000) as u32,
    })
}

fn not_applied(number: u64) -> SessionMsg<'static>
    ensures writable { IsWritable (message_of result) }
{
    SessionMsg::NotApplied(NotApplied {
        from_seq: number,
        count: (number % 0x1_0000_0000) as u32,
    })
}

fn finished_sending(id: &[u8; 16], number: u64) -> SessionMsg<'static>
    requires number { number < 2 ^ 64 - 1 }
    ensures writable { IsWritable (message_of result) }
{
    SessionMsg::FinishedSending(FinishedSending {
        session_id: *id,
        last_seq: Some(number),
    })
}

fn terminate<'a>(id: &[u8; 16], number: u64, datum: &'a [u8]) -> SessionMsg<'a>
    requires datum { length datum.now ≤ 2048 }
    ensures writable { IsWritable (message_of result) }
{
    SessionMsg::Terminate(Terminate {
        session_id: *id,
        code: (number % 256) as u8,
        reason: datum,
    })
}

/// The sum of all numbers that a message has: its fields, the first and the last byte of the session's identifier, and the
/// length of its data.
pub fn sum_of(message: &SessionMsg<'_>) -> u64 {
    match message {
        SessionMsg::Negotiate(m) => sum(&m.session_id, m.timestamp, m.client_flow, m.credentials),
        SessionMsg::NegotiationResponse(m) => {
            sum(
                &m.session_id,
                m.request_timestamp,
                m.server_flow,
                m.credentials,
            )
        }
        SessionMsg::NegotiationReject(m) => {
            sum(&m.session_id, m.request_timestamp, m.code, m.reason)
        }
        SessionMsg::Establish(m) => sum(
            &m.session_id,
            m.timestamp,
            m.keepalive,
            m.credentials,
        ).wrapping_add(m.next_seq.unwrap_or(0)),
        SessionMsg::EstablishmentAck(m) => {
            sum(&m.session_id, m.request_timestamp, m.keepalive, &[]).wrapping_add(
                m.next_seq.unwrap_or(0),
            )
        }
        SessionMsg::EstablishmentReject(m) => {
            sum(&m.session_id, m.request_timestamp, m.code, m.reason)
        }
        SessionMsg::Terminate(m) => sum(&m.session_id, 0, m.code, m.reason),
        _ => sum_of_flow(message),
    }
}

/// The same of a message that is neither of a handshake nor a Terminate.
fn sum_of_flow(message: &SessionMsg<'_>) -> u64 {
    match message {
        SessionMsg::Sequence(m) => m.next_seq,
        SessionMsg::RetransmitRequest(m) => {
            sum(&m.session_id, m.timestamp, m.count, &[]).wrapping_add(m.from_seq)
        }
        SessionMsg::Retransmission(m) => {
            sum(&m.session_id, m.request_timestamp, m.count, &[]).wrapping_add(m.next_seq)
        }
        SessionMsg::RetransmitReject(m) => {
            sum(&m.session_id, m.request_timestamp, m.code, m.reason)
        }
        SessionMsg::Applied(m) => m.from_seq.wrapping_add(u64::from(m.count)),
        SessionMsg::NotApplied(m) => m.from_seq.wrapping_add(u64::from(m.count)),
        SessionMsg::FinishedSending(m) => ends(&m.session_id).wrapping_add(m.last_seq.unwrap_or(0)),
        SessionMsg::FinishedReceiving(m) => ends(&m.session_id),
        _ => 0,
    }
}

/// The sum of an identifier's ends, a moment, a code or a count, and the length of data.
fn sum<N: Into<u64>>(id: &[u8; 16], moment: u64, number: N, datum: &[u8]) -> u64 {
    ends(id)
        .wrapping_add(moment)
        .wrapping_add(number.into())
        .wrapping_add(datum.len() as u64)
}

/// The first and the last byte of an identifier.
fn ends(id: &[u8; 16]) -> u64 {
    u64::from(id[0]) + u64::from(id[15])
}

//! What is done with a connection by the first frame that came on it.

ghost use Rattle.std.specs.Prelude.{◌≡◌, ◌<◌, ◌≤◌, ◌∷◌, [], length, take, drop};
ghost use Rattle.fixp_msgs.specs.Message.{message_of, negotiate, establish};
ghost use Rattle.fixp_msgs.specs.Canonical.{frame_bytes};
ghost use Rattle.conn_keys.specs.Verdicts.{seen, verdict_of, verdict_on, verdict_in, verdict_at, reject_message, is_too_long};
ghost use Rattle.fixp_replies.specs.Incoming.{incoming_of};
ghost use Rattle.sofh_frame.specs.Framing.{frame};

use crate::keys::Keys;
use fixp_msgs::{Establish, EstablishmentReject, Negotiate, NegotiationReject, SessionMsg, write};
use fixp_replies::{Incoming, classify};
use fixp_shake::{EstablishmentCode, NegotiationCode};
use sofh_frame::{FirstFrame, Order, next};

/// Of a connection at most so many bytes are looked at, before it is known whose it is. The longest message of the handshake has 2,108.
pub const LOOKED_AT: usize = 4096;

/// The size of a reject's frame, in bytes.
pub const REJECT_SIZE: usize = 41;

/// What is written to who does not give the keys, of the session and with the timestamp that the request names.
#[derive(Clone, Copy, Debug)]
pub enum Reject {
    /// NegotiationReject (FIXP 1.1).
    Negotiation {
        session_id: [u8; 16],
        request_timestamp: u64,
        code: NegotiationCode,
    },
    /// EstablishmentReject (FIXP 1.1).
    Establishment {
        session_id: [u8; 16],
        request_timestamp: u64,
        code: EstablishmentCode,
    },
}

/// What is done with a connection.
#[derive(Clone, Copy, Debug)]
pub enum Verdict {
    /// No whole frame came, and one still may: it is looked at again once more bytes came.
    Wait,
    /// Its first frame gives the keys: it is the session's, with all that came.
    Serve,
    /// Its first frame asks for the session without the keys: this is written, and it is closed.
    Reject(Reject),
    /// It is closed, and nothing is written.
    Close,
}

/// How many bytes an identifier has.
fn identifier_size(id: &[u8; 16]) -> usize
    ensures size { result ≡ length id.now }
    ensures sixteen { result ≡ 16 }
{
    id.len()
}

impl Reject {
    /// Writes the frame at the front of `into`, and answers the number of its bytes. What stands behind it stays.
    pub fn write(&self, into: &mut [u8]) -> usize
        requires { 41 ≤ length into.old }
        ensures size { result ≡ 41 }
        ensures frame { take result into.new ≡ frame_bytes (reject_message self.now) }
        ensures behind { drop result into.new ≡ drop result into.old }
    {
        match self {
            Reject::Negotiation {
                session_id,
                request_timestamp,
                code,
            } => {
                let _sixteen = identifier_size(session_id);
                write(
                    &SessionMsg::NegotiationReject(NegotiationReject {
                        session_id: *session_id,
                        request_timestamp: *request_timestamp,
                        code: code.code(),
                        reason: &[],
                    }),
                    into,
                )
            }
            Reject::Establishment {
                session_id,
                request_timestamp,
                code,
            } => {
                let _sixteen = identifier_size(session_id);
                write(
                    &SessionMsg::EstablishmentReject(EstablishmentReject {
                        session_id: *session_id,
                        request_timestamp: *request_timestamp,
                        code: code.code(),
                        reason: &[],
                    }),
                    into,
                )
            }
        }
    }
}

/// Whether the frame at the front is to have more bytes than are looked at.
#[tactic(auto, unfolding(sofh_frame::specs::Framing::length_in))]
fn is_too_long(front: &[u8]) -> bool
    ensures { result ≡ is_too_long front.now }
{
    front.len() >= 4
        && LOOKED_AT < u32::from_be_bytes([front[0], front[1], front[2], front[3]]) as usize
}

/// A Negotiate that came first.
fn on_negotiate(keys: &Keys, m: &Negotiate<'_>) -> Verdict
    ensures { seen result ≡ verdict_on keys.now (negotiate m.now.session_id m.now.timestamp m.now.client_flow m.now.credentials.now) }
{
    let code = if m.session_id != keys.session {
        NegotiationCode::Unspecified
    } else if !keys.has_credentials(m.credentials) {
        NegotiationCode::Credentials
    } else {
        return Verdict::Serve;
    };
    Verdict::Reject(Reject::Negotiation {
        session_id: m.session_id,
        request_timestamp: m.timestamp,
        code,
    })
}

/// An Establish that came first. The credentials are compared before the interval is looked at, since with them it is the session's to answer.
fn on_establish(keys: &Keys, m: &Establish<'_>) -> Verdict
    ensures { seen result ≡ verdict_on keys.now (establish m.now.session_id m.now.timestamp m.now.keepalive m.now.next_seq m.now.expected_next m.now.credentials.now) }
{
    let code = if m.session_id != keys.session {
        EstablishmentCode::Unnegotiated
    } else if keys.has_credentials(m.credentials) {
        return Verdict::Serve;
    } else if m.keepalive < 100 || 60000 < m.keepalive {
        EstablishmentCode::KeepaliveInterval
    } else {
        EstablishmentCode::Credentials
    };
    Verdict::Reject(Reject::Establishment {
        session_id: m.session_id,
        request_timestamp: m.timestamp,
        code,
    })
}

/// A session message that came first.
fn on_message(keys: &Keys, m: &SessionMsg<'_>) -> Verdict
    ensures { seen result ≡ verdict_on keys.now (message_of m.now) }
{
    match m {
        SessionMsg::Negotiate(m) => on_negotiate(keys, m),
        SessionMsg::Establish(m) => on_establish(keys, m),
        _ => Verdict::Close,
    }
}

/// What came first, classified.
fn on_incoming(keys: &Keys, incoming: &Incoming<'_>) -> Verdict
    ensures { seen result ≡ verdict_in keys.now (incoming_of incoming.now) }
{
    match incoming {
        Incoming::Session(m) => on_message(keys, m),
        Incoming::Application { .. }
        | Incoming::WrongOrder
        | Incoming::TooShort
        | Incoming::Unknown(_) => Verdict::Close,
    }
}

/// The message of the frame that came first.
fn on_frame(keys: &Keys, order: Order, message: &[u8]) -> Verdict
    requires { 8 ≤ length message.now }
    ensures { (size : _) → seen result ≡ verdict_at keys.now (frame order message.now size) }
{
    on_incoming(keys, &classify(order, message))
}

/// What is done with a connection on which these bytes came first, of a session with these keys.
///
/// A first frame that is a Negotiate or an Establish with the keys makes it the session's. One without the keys is rejected as the reply table rejects it
/// where the session was negotiated. Any other frame, bytes that begin with none, and a frame of more than 4,096 bytes close it without a word.
#[tactic(auto, unfolding(crate::specs::Verdicts::verdict_of))]
pub fn judge(keys: &Keys, front: &[u8]) -> Verdict
    ensures exact { seen result ≡ verdict_of keys.now front.now }
{
    if is_too_long(front) {
        return Verdict::Close;
    }
    match next(front) {
        FirstFrame::Frame { order, message, .. } => on_frame(keys, order, message),
        FirstFrame::Rest => Verdict::Wait,
        FirstFrame::BadLength(_) | FirstFrame::BadEncoding(_) => Verdict::Close,
    }
}

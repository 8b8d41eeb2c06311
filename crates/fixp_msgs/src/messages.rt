//! The session messages and their fields (FIXP 1.1), in the layout of this project's profile.

/// What a handshake's message says of the number that its writer expects next of the other side's flow.
#[derive(Clone, Copy, Debug)]
pub enum Expected {
    /// Nothing: a message of version 0 has no such field.
    Absent,
    /// That the other side's flow is not sent again, so it expects none.
    Null,
    /// The number that its inbox awaits, as read; 2^64 - 1 is never written.
    Number(u64),
}

/// The client proposes a session: its identifier and its own flow.
#[derive(Clone, Copy, Debug)]
pub struct Negotiate<'a> {
    /// The 16 bytes of the session's UUID.
    pub session_id: [u8; 16],
    /// Nanoseconds.
    pub timestamp: u64,
    /// The code of the client's flow, as read.
    pub client_flow: u8,
    /// Compared as bytes, at most 2,048 of them when written.
    pub credentials: &'a [u8],
}

impl Negotiate<'_> {
    pub(crate) const TEMPLATE: u16 = 1;

    pub(crate) const BLOCK: u16 = 25;
}

/// The server accepts a Negotiate.
#[derive(Clone, Copy, Debug)]
pub struct NegotiationResponse<'a> {
    /// The 16 bytes of the session's UUID.
    pub session_id: [u8; 16],
    /// The timestamp of the Negotiate that is answered, in nanoseconds.
    pub request_timestamp: u64,
    /// The code of the server's flow, as read.
    pub server_flow: u8,
    /// Compared as bytes, at most 2,048 of them when written.
    pub credentials: &'a [u8],
}

impl NegotiationResponse<'_> {
    pub(crate) const TEMPLATE: u16 = 2;

    pub(crate) const BLOCK: u16 = 25;
}

/// The server refuses a Negotiate.
#[derive(Clone, Copy, Debug)]
pub struct NegotiationReject<'a> {
    /// The 16 bytes of the refused request's UUID.
    pub session_id: [u8; 16],
    /// The timestamp of the Negotiate that is answered, in nanoseconds.
    pub request_timestamp: u64,
    /// Why, as read: 1 unspecified, 2 credentials, 3 flow type not supported, 4 duplicate id.
    pub code: u8,
    /// Free bytes, at most 2,048 of them when written.
    pub reason: &'a [u8],
}

impl NegotiationReject<'_> {
    pub(crate) const TEMPLATE: u16 = 3;

    pub(crate) const BLOCK: u16 = 25;
}

/// The client binds a negotiated session to a connection.
#[derive(Clone, Copy, Debug)]
pub struct Establish<'a> {
    /// The 16 bytes of the session's UUID.
    pub session_id: [u8; 16],
    /// Nanoseconds.
    pub timestamp: u64,
    /// The client's heartbeat interval in milliseconds.
    pub keepalive: u32,
    /// The number of the client's next application message; none on a flow without numbers.
    pub next_seq: Option<u64>,
    /// The number that the client expects of the server's flow.
    pub expected_next: Expected,
    /// Compared as bytes, at most 2,048 of them when written.
    pub credentials: &'a [u8],
}

impl Establish<'_> {
    pub(crate) const TEMPLATE: u16 = 4;

    /// At version 0; the expected number makes it longer.
    pub(crate) const BLOCK: u16 = 36;
}

/// The server accepts an Establish.
#[derive(Clone, Copy, Debug)]
pub struct EstablishmentAck {
    /// The 16 bytes of the session's UUID.
    pub session_id: [u8; 16],
    /// The timestamp of the Establish that is answered, in nanoseconds.
    pub request_timestamp: u64,
    /// The server's heartbeat interval in milliseconds.
    pub keepalive: u32,
    /// The number of the server's next application message; none on a flow without numbers.
    pub next_seq: Option<u64>,
    /// The number that the server expects of the client's flow.
    pub expected_next: Expected,
}

impl EstablishmentAck {
    pub(crate) const TEMPLATE: u16 = 5;

    /// At version 0; the expected number makes it longer.
    pub(crate) const BLOCK: u16 = 36;
}

/// The server refuses an Establish.
#[derive(Clone, Copy, Debug)]
pub struct EstablishmentReject<'a> {
    /// The 16 bytes of the refused request's UUID.
    pub session_id: [u8; 16],
    /// The timestamp of the Establish that is answered, in nanoseconds.
    pub request_timestamp: u64,
    /// Why, as read: 1 unspecified, 2 unnegotiated, 3 already established, 4 session blocked,
    /// 5 keepalive interval, 6 credentials.
    pub code: u8,
    /// Free bytes, at most 2,048 of them when written.
    pub reason: &'a [u8],
}

impl EstablishmentReject<'_> {
    pub(crate) const TEMPLATE: u16 = 6;

    pub(crate) const BLOCK: u16 = 25;
}

/// The number of the sender's next application message; the heartbeat of a numbered flow.
#[derive(Clone, Copy, Debug)]
pub struct Sequence {
    /// At least 1 where an honest peer wrote it; as read.
    pub next_seq: u64,
}

impl Sequence {
    pub(crate) const TEMPLATE: u16 = 7;

    pub(crate) const BLOCK: u16 = 8;
}

/// The heartbeat of a flow without numbers.
#[derive(Clone, Copy, Debug)]
pub struct UnsequencedHeartbeat;

impl UnsequencedHeartbeat {
    pub(crate) const TEMPLATE: u16 = 8;

    pub(crate) const BLOCK: u16 = 0;
}

/// The receiver asks for messages that it missed.
#[derive(Clone, Copy, Debug)]
pub struct RetransmitRequest {
    /// The 16 bytes of the session's UUID.
    pub session_id: [u8; 16],
    /// Nanoseconds.
    pub timestamp: u64,
    /// The first number that is asked for.
    pub from_seq: u64,
    /// How many numbers are asked for.
    pub count: u32,
}

impl RetransmitRequest {
    pub(crate) const TEMPLATE: u16 = 9;

    pub(crate) const BLOCK: u16 = 36;
}

/// The sender announces messages that are sent again.
#[derive(Clone, Copy, Debug)]
pub struct Retransmission {
    /// The 16 bytes of the session's UUID.
    pub session_id: [u8; 16],
    /// The number of the first of them.
    pub next_seq: u64,
    /// The timestamp of the RetransmitRequest that is answered, in nanoseconds.
    pub request_timestamp: u64,
    /// How many messages are sent again.
    pub count: u32,
}

impl Retransmission {
    pub(crate) const TEMPLATE: u16 = 10;

    pub(crate) const BLOCK: u16 = 36;
}

/// The sender refuses a RetransmitRequest.
#[derive(Clone, Copy, Debug)]
pub struct RetransmitReject<'a> {
    /// The 16 bytes of the refused request's UUID.
    pub session_id: [u8; 16],
    /// The timestamp of the RetransmitRequest that is answered, in nanoseconds.
    pub request_timestamp: u64,
    /// Why, as read: 1 out of range, 2 invalid session, 3 request limit exceeded.
    pub code: u8,
    /// Free bytes, at most 2,048 of them when written.
    pub reason: &'a [u8],
}

impl RetransmitReject<'_> {
    pub(crate) const TEMPLATE: u16 = 11;

    pub(crate) const BLOCK: u16 = 25;
}

/// The receiver of an idempotent flow applied these numbers.
#[derive(Clone, Copy, Debug)]
pub struct Applied {
    /// The first number.
    pub from_seq: u64,
    /// How many numbers.
    pub count: u32,
}

impl Applied {
    pub(crate) const TEMPLATE: u16 = 12;

    pub(crate) const BLOCK: u16 = 12;
}

/// The receiver of an idempotent flow did not apply these numbers, and will not.
#[derive(Clone, Copy, Debug)]
pub struct NotApplied {
    /// The first number.
    pub from_seq: u64,
    /// How many numbers.
    pub count: u32,
}

impl NotApplied {
    pub(crate) const TEMPLATE: u16 = 13;

    pub(crate) const BLOCK: u16 = 12;
}

/// The sender's flow has ended.
#[derive(Clone, Copy, Debug)]
pub struct FinishedSending {
    /// The 16 bytes of the session's UUID.
    pub session_id: [u8; 16],
    /// The number of its last application message; none on a flow without numbers.
    pub last_seq: Option<u64>,
}

impl FinishedSending {
    pub(crate) const TEMPLATE: u16 = 14;

    pub(crate) const BLOCK: u16 = 24;
}

/// The receiver has all of the peer's flow.
#[derive(Clone, Copy, Debug)]
pub struct FinishedReceiving {
    /// The 16 bytes of the session's UUID.
    pub session_id: [u8; 16],
}

impl FinishedReceiving {
    pub(crate) const TEMPLATE: u16 = 15;

    pub(crate) const BLOCK: u16 = 16;
}

/// The end of the session's connection.
#[derive(Clone, Copy, Debug)]
pub struct Terminate<'a> {
    /// The 16 bytes of the session's UUID.
    pub session_id: [u8; 16],
    /// Why the connection ends, as read: 1 finished, 2 unspecified error, 3 re-request out of
    /// bounds, 4 re-request in progress.
    pub code: u8,
    /// Free bytes, at most 2,048 of them when written.
    pub reason: &'a [u8],
}

impl Terminate<'_> {
    pub(crate) const TEMPLATE: u16 = 16;

    pub(crate) const BLOCK: u16 = 17;
}

/// A session message.
#[derive(Clone, Copy, Debug)]
pub enum SessionMsg<'a> {
    Negotiate(Negotiate<'a>),
    NegotiationResponse(NegotiationResponse<'a>),
    NegotiationReject(NegotiationReject<'a>),
    Establish(Establish<'a>),
    EstablishmentAck(EstablishmentAck),
    EstablishmentReject(EstablishmentReject<'a>),
    Sequence(Sequence),
    UnsequencedHeartbeat(UnsequencedHeartbeat),
    RetransmitRequest(RetransmitRequest),
    Retransmission(Retransmission),
    RetransmitReject(RetransmitReject<'a>),
    Applied(Applied),
    NotApplied(NotApplied),
    FinishedSending(FinishedSending),
    FinishedReceiving(FinishedReceiving),
    Terminate(Terminate<'a>),
}

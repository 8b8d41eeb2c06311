//! Writing a session message as a frame of its own.

ghost use Rattle.std.specs.Prelude.{◌≡◌, ℕ, ◌+◌, ◌-◌, ◌<◌, ◌≤◌, ◌^◌, ◌++◌, if◌then◌else◌, [], ◌∷◌, length, take, drop, Some};
ghost use Rattle.std.specs.Int.{w16, w64, to_le_bytes};
ghost use Rattle.std.specs.List.{list_any};
ghost use Rattle.fixp_msgs.specs.declared.messages.SessionMsg.TheVariants as variants;
ghost use Rattle.fixp_msgs.specs.Header.{session_schema};
ghost use Rattle.fixp_msgs.specs.Message.{message_of};
ghost use Rattle.fixp_msgs.specs.Table.{Field, Row, row_of, size_of, is_later};
ghost use Rattle.fixp_msgs.specs.Canonical.{field_bytes, with_datum, framing_bytes, row_frame, frame_bytes, IsWritable, IsWritableRow, IsLegal, IsLegalRow};

use crate::frames::SESSION_SCHEMA;
use crate::messages::{
    Applied, Establish, EstablishmentAck, EstablishmentReject, Expected, FinishedReceiving,
    FinishedSending, Negotiate, NegotiationReject, NegotiationResponse, NotApplied, Retransmission,
    RetransmitReject, RetransmitRequest, Sequence, SessionMsg, Terminate, UnsequencedHeartbeat,
};

/// The encoding type of little-endian SBE 1.0 (Simple Open Framing Header 1.0).
const LITTLE_ENDIAN_SBE: u16 = 0xEB50;

/// The bytes of the framing header and the message header.
const HEADERS: usize = 14;

/// The number of bytes of the frame that `write` makes of the message.
pub fn size(msg: &SessionMsg<'_>) -> usize
    ensures size { result ≡ length (frame_bytes (message_of msg.now)) }
    ensures least { 14 ≤ result }
    ensures most { IsWritable (message_of msg.now) → result ≤ 2108 }
{
    match msg {
        SessionMsg::Negotiate(m) => session_frame(&m.session_id, Negotiate::BLOCK)
            + datum_size(m.credentials),
        SessionMsg::NegotiationResponse(m) => session_frame(
            &m.session_id,
            NegotiationResponse::BLOCK,
        ) + datum_size(m.credentials),
        SessionMsg::NegotiationReject(m) => session_frame(&m.session_id, NegotiationReject::BLOCK)
            + datum_size(m.reason),
        SessionMsg::Establish(m) => session_frame(&m.session_id, Establish::BLOCK)
            + expected_size(m.expected_next)
            + datum_size(m.credentials),
        SessionMsg::EstablishmentAck(m) => session_frame(&m.session_id, EstablishmentAck::BLOCK)
            + expected_size(m.expected_next),
        SessionMsg::EstablishmentReject(m) => session_frame(
            &m.session_id,
            EstablishmentReject::BLOCK,
        ) + datum_size(m.reason),
        SessionMsg::Sequence(_) => HEADERS + Sequence::BLOCK as usize,
        SessionMsg::UnsequencedHeartbeat(_) => HEADERS,
        SessionMsg::RetransmitRequest(m) => session_frame(&m.session_id, RetransmitRequest::BLOCK),
        SessionMsg::Retransmission(m) => session_frame(&m.session_id, Retransmission::BLOCK),
        SessionMsg::RetransmitReject(m) => session_frame(&m.session_id, RetransmitReject::BLOCK)
            + datum_size(m.reason),
        SessionMsg::Applied(_) => HEADERS + Applied::BLOCK as usize,
        SessionMsg::NotApplied(_) => HEADERS + NotApplied::BLOCK as usize,
        SessionMsg::FinishedSending(m) => session_frame(&m.session_id, FinishedSending::BLOCK),
        SessionMsg::FinishedReceiving(m) => session_frame(&m.session_id, FinishedReceiving::BLOCK),
        SessionMsg::Terminate(m) => session_frame(&m.session_id, Terminate::BLOCK)
            + datum_size(m.reason),
    }
}

/// The size of a frame without a datum, whose block has this length and begins with the
/// session's identifier.
fn session_frame(id: &[u8; 16], block: u16) -> usize
    requires { 16 ≤ block }
    ensures size { result ≡ 14 + (length id.now + (block - 16)) }
    ensures whole { result ≡ 14 + block }
{
    HEADERS + id.len() + (block as usize - 16)
}

/// The size of an expected number, where one is written.
fn expected_size(expected: Expected) -> usize
    ensures size { result ≡ size_of (Field.expected expected) }
    ensures most { result ≤ 8 }
{
    match expected {
        Expected::Absent => 0,
        Expected::Null => 8,
        Expected::Number(_) => 8,
    }
}

/// The size of a datum with its length.
fn datum_size(datum: &[u8]) -> usize
    ensures size { result ≡ 2 + length datum.now }
    ensures bound { result ≤ 2 ^ 63 + 2 }
{
    2 + datum.len()
}

/// Writes the message's frame at the front of `out`, and answers the number of its bytes. It needs
/// that room, data of at most 2,048 bytes, and no number 2^64 - 1 in an optional field, where it
/// stands for a missing one, or as an expected number. What stands behind the frame stays.
pub fn write(msg: &SessionMsg<'_>, out: &mut [u8]) -> usize
    requires writable { IsWritable (message_of msg.now) }
    requires room { length (frame_bytes (message_of msg.now)) ≤ length out.old }
    ensures size { result ≡ length (frame_bytes (message_of msg.now)) }
    ensures frame { take result out.new ≡ frame_bytes (message_of msg.now) }
    ensures behind { drop result out.new ≡ drop result out.old }
    ensures legal { IsLegal (message_of msg.now) }
{
    let frame = size(msg);
    match *msg {
        SessionMsg::Negotiate(m) => m.put(out, frame),
        SessionMsg::NegotiationResponse(m) => m.put(out, frame),
        SessionMsg::NegotiationReject(m) => m.put(out, frame),
        SessionMsg::Establish(m) => m.put(out, frame),
        SessionMsg::EstablishmentAck(m) => m.put(out, frame),
        SessionMsg::EstablishmentReject(m) => m.put(out, frame),
        SessionMsg::Sequence(m) => m.put(out, frame),
        SessionMsg::UnsequencedHeartbeat(m) => m.put(out, frame),
        SessionMsg::RetransmitRequest(m) => m.put(out, frame),
        SessionMsg::Retransmission(m) => m.put(out, frame),
        SessionMsg::RetransmitReject(m) => m.put(out, frame),
        SessionMsg::Applied(m) => m.put(out, frame),
        SessionMsg::NotApplied(m) => m.put(out, frame),
        SessionMsg::FinishedSending(m) => m.put(out, frame),
        SessionMsg::FinishedReceiving(m) => m.put(out, frame),
        SessionMsg::Terminate(m) => m.put(out, frame),
    }
}

/// Puts the bytes at a place of `out`, and answers the place behind them.
fn put(out: &mut [u8], at: usize, bytes: &[u8]) -> usize
    requires { at + length bytes.now ≤ length out.old }
    ensures end { result ≡ at + length bytes.now }
    ensures front { take result out.new ≡ take at out.old ++ bytes.now }
    ensures back { (n : ℕ) → result ≤ n → drop n out.new ≡ drop n out.old }
{
    let end = at + bytes.len();
    out[at..end].copy_from_slice(bytes);
    end
}

/// The bytes of a number that may be missing: its null value where it is.
fn optional_bytes(number: Option<u64>) -> [u8; 8]
    ensures { result ≡ field_bytes (Field.optional number) }
{
    number.unwrap_or(u64::MAX).to_le_bytes()
}

/// Puts a datum behind its length.
fn put_datum(out: &mut [u8], at: usize, datum: &[u8]) -> usize
    requires short { length datum.now < 2 ^ 16 }
    requires room { at + 2 + length datum.now ≤ length out.old }
    ensures end { result ≡ at + 2 + length datum.now }
    ensures front { take result out.new ≡ with_datum (take at out.old) (Some datum.now) }
    ensures back { (n : ℕ) → result ≤ n → drop n out.new ≡ drop n out.old }
{
    let at = put(out, at, &(datum.len() as u16).to_le_bytes());
    put(out, at, datum)
}

/// What a message's header says of it.
#[derive(Clone, Copy)]
struct Head {
    /// The length of its block.
    block: u16,
    template: u16,
    version: u16,
}

/// Puts the framing header and the message header at the front: the frame's size, and what the header says.
fn put_head(out: &mut [u8], frame: usize, head: Head) -> usize
    requires size { frame < 2 ^ 32 }
    requires room { 14 ≤ length out.old }
    ensures end { result ≡ 14 }
    ensures front { take result out.new ≡ framing_bytes frame ++ (to_le_bytes w16 head.block ++ to_le_bytes w16 head.template ++ to_le_bytes w16 session_schema ++ to_le_bytes w16 head.version) }
    ensures back { (n : ℕ) → result ≤ n → drop n out.new ≡ drop n out.old }
{
    let at = put(out, 0, &(frame as u32).to_be_bytes());
    let at = put(out, at, &LITTLE_ENDIAN_SBE.to_be_bytes());
    let at = put(out, at, &head.block.to_le_bytes());
    let at = put(out, at, &head.template.to_le_bytes());
    let at = put(out, at, &SESSION_SCHEMA.to_le_bytes());
    put(out, at, &head.version.to_le_bytes())
}

/// The same of a message of version 0.
fn put_headers(out: &mut [u8], frame: usize, block: u16, template: u16) -> usize
    requires size { frame < 2 ^ 32 }
    requires room { 14 ≤ length out.old }
    ensures end { result ≡ 14 }
    ensures front { take result out.new ≡ framing_bytes frame ++ (to_le_bytes w16 block ++ to_le_bytes w16 template ++ to_le_bytes w16 session_schema ++ to_le_bytes w16 0) }
    ensures back { (n : ℕ) → result ≤ n → drop n out.new ≡ drop n out.old }
{
    put_head(
        out,
        frame,
        Head {
            block,
            template,
            version: 0,
        },
    )
}

/// Puts the headers, the session's identifier and the number behind it, with which many blocks begin.
fn put_named(
    out: &mut [u8],
    frame: usize,
    block: u16,
    template: u16,
    session_id: &[u8; 16],
    number: u64,
) -> usize
    requires size { frame < 2 ^ 32 }
    requires room { 38 ≤ length out.old }
    ensures end { result ≡ 38 }
    ensures front { take result out.new ≡ framing_bytes frame ++ ((to_le_bytes w16 block ++ to_le_bytes w16 template ++ to_le_bytes w16 session_schema ++ to_le_bytes w16 0)
        ++ (session_id.now ++ to_le_bytes w64 number)) }
    ensures back { (n : ℕ) → result ≤ n → drop n out.new ≡ drop n out.old }
{
    let at = put_headers(out, frame, block, template);
    let at = put(out, at, session_id);
    put(out, at, &number.to_le_bytes())
}

/// The header of Establish or EstablishmentAck: the expected number is there from version 1 on.
fn established_head(template: u16, expected: Expected) -> Head
    ensures block { result.block ≡ 36 + size_of (Field.expected expected) }
    ensures template { result.template ≡ template }
    ensures version { result.version ≡ (if list_any is_later (Field.expected expected ∷ []) then 1 else 0) }
{
    let (block, version) = match expected {
        Expected::Absent => (Establish::BLOCK, 0),
        Expected::Null => (Establish::BLOCK + 8, 1),
        Expected::Number(_) => (Establish::BLOCK + 8, 1),
    };
    Head {
        block,
        template,
        version,
    }
}

/// Puts the expected number, where one is written.
fn put_expected(out: &mut [u8], at: usize, expected: Expected) -> usize
    requires room { at + size_of (Field.expected expected) ≤ length out.old }
    ensures end { result ≡ at + size_of (Field.expected expected) }
    ensures front { take result out.new ≡ take at out.old ++ field_bytes (Field.expected expected) }
    ensures back { (n : ℕ) → result ≤ n → drop n out.new ≡ drop n out.old }
{
    match expected {
        Expected::Absent => at,
        Expected::Null => put(out, at, &u64::MAX.to_le_bytes()),
        Expected::Number(number) => put(out, at, &number.to_le_bytes()),
    }
}

/// A message that is written by a row of the table.
trait Written {
    /// Its row, with its values.
    ghost row: { Self → Row };

    /// Puts the frame of this size at the front.
    fn put(self, out: &mut [u8], frame: usize) -> usize
        requires writable { IsWritableRow (row self) }
        requires size { frame ≡ length (row_frame (row self)) }
        requires room { frame ≤ length out.old }
        ensures size { result ≡ frame }
        ensures frame { take result out.new ≡ row_frame (row self) }
        ensures behind { drop result out.new ≡ drop result out.old }
        ensures legal { IsLegalRow (row self) };
}

impl Written for Negotiate<'_> {
    ghost row = { λ m. row_of (message_of (variants.Negotiate m)) };

    fn put(self, out: &mut [u8], frame: usize) -> usize {
        let at = put_named(
            out,
            frame,
            Negotiate::BLOCK,
            Negotiate::TEMPLATE,
            &self.session_id,
            self.timestamp,
        );
        let at = put(out, at, &[self.client_flow]);
        put_datum(out, at, self.credentials)
    }
}

impl Written for NegotiationResponse<'_> {
    ghost row = { λ m. row_of (message_of (variants.NegotiationResponse m)) };

    fn put(self, out: &mut [u8], frame: usize) -> usize {
        let at = put_named(
            out,
            frame,
            NegotiationResponse::BLOCK,
            NegotiationResponse::TEMPLATE,
            &self.session_id,
            self.request_timestamp,
        );
        let at = put(out, at, &[self.server_flow]);
        put_datum(out, at, self.credentials)
    }
}

impl Written for NegotiationReject<'_> {
    ghost row = { λ m. row_of (message_of (variants.NegotiationReject m)) };

    fn put(self, out: &mut [u8], frame: usize) -> usize {
        let at = put_named(
            out,
            frame,
            NegotiationReject::BLOCK,
            NegotiationReject::TEMPLATE,
            &self.session_id,
            self.request_timestamp,
        );
        let at = put(out, at, &[self.code]);
        put_datum(out, at, self.reason)
    }
}

impl Written for Establish<'_> {
    ghost row = { λ m. row_of (message_of (variants.Establish m)) };

    fn put(self, out: &mut [u8], frame: usize) -> usize {
        let head = established_head(Establish::TEMPLATE, self.expected_next);
        let at = put_head(out, frame, head);
        let at = put(out, at, &self.session_id);
        let at = put(out, at, &self.timestamp.to_le_bytes());
        let at = put(out, at, &self.keepalive.to_le_bytes());
        let at = put(out, at, &optional_bytes(self.next_seq));
        let at = put_expected(out, at, self.expected_next);
        put_datum(out, at, self.credentials)
    }
}

impl Written for EstablishmentAck {
    ghost row = { λ m. row_of (message_of (variants.EstablishmentAck m)) };

    fn put(self, out: &mut [u8], frame: usize) -> usize {
        let head = established_head(EstablishmentAck::TEMPLATE, self.expected_next);
        let at = put_head(out, frame, head);
        let at = put(out, at, &self.session_id);
        let at = put(out, at, &self.request_timestamp.to_le_bytes());
        let at = put(out, at, &self.keepalive.to_le_bytes());
        let at = put(out, at, &optional_bytes(self.next_seq));
        put_expected(out, at, self.expected_next)
    }
}

impl Written for EstablishmentReject<'_> {
    ghost row = { λ m. row_of (message_of (variants.EstablishmentReject m)) };

    fn put(self, out: &mut [u8], frame: usize) -> usize {
        let at = put_named(
            out,
            frame,
            EstablishmentReject::BLOCK,
            EstablishmentReject::TEMPLATE,
            &self.session_id,
            self.request_timestamp,
        );
        let at = put(out, at, &[self.code]);
        put_datum(out, at, self.reason)
    }
}

impl Written for Sequence {
    ghost row = { λ m. row_of (message_of (variants.Sequence m)) };

    fn put(self, out: &mut [u8], frame: usize) -> usize {
        let at = put_headers(out, frame, Sequence::BLOCK, Sequence::TEMPLATE);
        put(out, at, &self.next_seq.to_le_bytes())
    }
}

impl Written for UnsequencedHeartbeat {
    ghost row = { λ m. row_of (message_of (variants.UnsequencedHeartbeat m)) };

    fn put(self, out: &mut [u8], frame: usize) -> usize {
        put_headers(
            out,
            frame,
            UnsequencedHeartbeat::BLOCK,
            UnsequencedHeartbeat::TEMPLATE,
        )
    }
}

impl Written for RetransmitRequest {
    ghost row = { λ m. row_of (message_of (variants.RetransmitRequest m)) };

    fn put(self, out: &mut [u8], frame: usize) -> usize {
        let at = put_named(
            out,
            frame,
            RetransmitRequest::BLOCK,
            RetransmitRequest::TEMPLATE,
            &self.session_id,
            self.timestamp,
        );
        let at = put(out, at, &self.from_seq.to_le_bytes());
        put(out, at, &self.count.to_le_bytes())
    }
}

impl Written for Retransmission {
    ghost row = { λ m. row_of (message_of (variants.Retransmission m)) };

    fn put(self, out: &mut [u8], frame: usize) -> usize {
        let at = put_named(
            out,
            frame,
            Retransmission::BLOCK,
            Retransmission::TEMPLATE,
            &self.session_id,
            self.next_seq,
        );
        let at = put(out, at, &self.request_timestamp.to_le_bytes());
        put(out, at, &self.count.to_le_bytes())
    }
}

impl Written for RetransmitReject<'_> {
    ghost row = { λ m. row_of (message_of (variants.RetransmitReject m)) };

    fn put(self, out: &mut [u8], frame: usize) -> usize {
        let at = put_named(
            out,
            frame,
            RetransmitReject::BLOCK,
            RetransmitReject::TEMPLATE,
            &self.session_id,
            self.request_timestamp,
        );
        let at = put(out, at, &[self.code]);
        put_datum(out, at, self.reason)
    }
}

impl Written for Applied {
    ghost row = { λ m. row_of (message_of (variants.Applied m)) };

    fn put(self, out: &mut [u8], frame: usize) -> usize {
        let at = put_headers(out, frame, Applied::BLOCK, Applied::TEMPLATE);
        let at = put(out, at, &self.from_seq.to_le_bytes());
        put(out, at, &self.count.to_le_bytes())
    }
}

impl Written for NotApplied {
    ghost row = { λ m. row_of (message_of (variants.NotApplied m)) };

    fn put(self, out: &mut [u8], frame: usize) -> usize {
        let at = put_headers(out, frame, NotApplied::BLOCK, NotApplied::TEMPLATE);
        let at = put(out, at, &self.from_seq.to_le_bytes());
        put(out, at, &self.count.to_le_bytes())
    }
}

impl Written for FinishedSending {
    ghost row = { λ m. row_of (message_of (variants.FinishedSending m)) };

    fn put(self, out: &mut [u8], frame: usize) -> usize {
        let at = put_headers(
            out,
            frame,
            FinishedSending::BLOCK,
            FinishedSending::TEMPLATE,
        );
        let at = put(out, at, &self.session_id);
        put(out, at, &optional_bytes(self.last_seq))
    }
}

impl Written for FinishedReceiving {
    ghost row = { λ m. row_of (message_of (variants.FinishedReceiving m)) };

    fn put(self, out: &mut [u8], frame: usize) -> usize {
        let at = put_headers(
            out,
            frame,
            FinishedReceiving::BLOCK,
            FinishedReceiving::TEMPLATE,
        );
        put(out, at, &self.session_id)
    }
}

impl Written for Terminate<'_> {
    ghost row = { λ m. row_of (message_of (variants.Terminate m)) };

    fn put(self, out: &mut [u8], frame: usize) -> usize {
        let at = put_headers(out, frame, Terminate::BLOCK, Terminate::TEMPLATE);
        let at = put(out, at, &self.session_id);
        let at = put(out, at, &[self.code]);
        put_datum(out, at, self.reason)
    }
}

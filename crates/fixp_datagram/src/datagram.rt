//! A datagram's bytes, taken apart: its first number, and the payloads of its messages.
//! Nothing is copied: a payload is lent from the bytes.

ghost use Rattle.std.specs.Prelude.{◌≡◌, ℕ, List, [], ◌∷◌, ◌++◌, ◌<◌, ◌≤◌, ◌^◌, length, IfOk, IfErr, IfSome, IfNone, IsOkAnd, IsErrOf};
ghost use Rattle.std.specs.Int.{w64, to_le_bytes};
ghost use Rattle.fixp_msgs.specs.Payload.{IsApplication};
ghost use Rattle.fixp_datagram.specs.declared.datagram.DgFault.TheVariants as faults;
ghost use Rattle.fixp_datagram.specs.Datagrams.{Contents, most_bytes, IsApplicationFrame, BeginsWithSequence, BeginsWithApplications, SpellsDatagram};
ghost use Rattle.fixp_datagram.specs.Faults.{HasCause};
ghost use Rattle.fixp_datagram.specs.Opened.{sequence_head, BeginsWithApplication};
ghost use Rattle.fixp_datagram.specs.Answering.{Answers};
ghost use Rattle.sofh_frame.specs.Framing.{Frame, length_in, spelled};
ghost use Rattle.fixp_msgs.specs.declared.frames.FrameKind.TheVariants.{Session};
ghost use Rattle.fixp_msgs.specs.Header.{kind_of};
ghost use Rattle.fixp_msgs.specs.Message.{sequence, message_of};
ghost use Rattle.fixp_msgs.specs.Grammar.{Spells};

use fixp_msgs::{FrameKind, SessionMsg, kind, read};
use sofh_frame::{FirstFrame, Order};
use std::marker::Model;

/// The most bytes of a datagram.
pub const MOST_BYTES: usize = 65_000;

/// The bytes of a frame's length, behind which its payload stands.
pub(crate) const LENGTH_SIZE: usize = 4;

/// The bytes of a Sequence's frame up to its number, as `fixp_msgs` writes it: the frame's length, the encoding type of
/// little-endian SBE 1.0, and the message's header.
const SEQUENCE_HEAD: [u8; 14] = [0, 0, 0, 22, 0xEB, 0x50, 8, 0, 7, 0, 0x11, 0xF0, 0, 0];

/// The bytes of its number.
const NUMBER_SIZE: usize = 8;

/// Why bytes are no datagram.
#[derive(Clone, Copy, Debug)]
pub enum DgFault {
    /// They do not begin with a whole Sequence frame.
    NoSequence,
    /// Behind the Sequence stand not only whole application frames.
    BadFrame {
        /// The place where the first of them should begin, in bytes from the datagram's first.
        at: u64,
    },
    /// They are more than 65,000.
    TooLong,
}

/// A datagram that is read: the number of its first message, and the payloads that were not given yet.
#[derive(Debug, Drop)]
pub struct Datagram<'a> {
    first: u64,
    rest: &'a [u8],
}

impl<'a> Model for Datagram<'a> {
    ghost use Rattle.fixp_datagram.specs.Datagrams.{Contents};

    ghost Value = { Contents };

    ghost use Rattle.fixp_datagram.specs.Opened.{payloads_in, AreApplications};

    ghost view = { λ d. record { first = d.first; payloads = payloads_in d.rest.now } };

    ghost invariant = { λ d. AreApplications d.rest.now };
}

/// The datagram that the bytes spell.
///
/// # Errors
/// More than 65,000 bytes, which is looked for first; no whole Sequence frame at the front; anything else than whole
/// application frames behind it.
pub fn open_datagram<'a>(bytes: &'a [u8]) -> Result<Datagram<'a>, DgFault>
    ensures found { IfOk result (λ d. SpellsDatagram bytes.now d) }
    ensures short { IfOk result (λ d. length bytes.now ≤ most_bytes) }
    ensures only { (d : Contents) → length bytes.now ≤ most_bytes → SpellsDatagram bytes.now d → IsOkAnd result (λ r. r ≡ d) }
    // A fault has its cause, and comes wherever it has.
    ensures cause { IfErr result (HasCause bytes.now) }
    ensures too_long { most_bytes < length bytes.now → IsErrOf result faults.TooLong }
    ensures no_sequence { HasCause bytes.now faults.NoSequence → IsErrOf result faults.NoSequence }
    ensures bad_frame { (at : ℕ) → HasCause bytes.now (faults.BadFrame at) → IsErrOf result (faults.BadFrame at) }
{
    read_datagram(bytes)
}

impl<'a> Datagram<'a> {
    /// The number of the datagram's first message, as its Sequence has it.
    pub fn first(&self) -> u64
        ensures { result ≡ self.now.first }
    {
        self.first
    }

    /// The payload of the next message, or none at the datagram's end.
    pub fn next(&mut self) -> Option<&'a [u8]>
        ensures given { IfSome result (λ payload. self.old.payloads ≡ payload.now ∷ self.new.payloads) }
        ensures application { IfSome result (λ payload. IsApplication payload.now) }
        ensures end { IfNone result (self.old.payloads ≡ []) }
        ensures same { IfNone result (self.new ≡ self.old) }
        ensures first { self.new.first ≡ self.old.first }
    {
        if self.rest.is_empty() {
            return None;
        }
        // The frame was looked at when the datagram was opened.
        let (frame, behind) = self.rest.split_at(stated_size(self.rest));
        self.rest = behind;
        let (_, payload) = frame.split_at(LENGTH_SIZE);
        Some(payload)
    }
}

/// The size that the frame at the front states, in bytes.
#[tactic(auto, unfolding(sofh_frame::specs::Framing::length_in))]
fn stated_size(bytes: &[u8]) -> usize
    requires { 4 ≤ length bytes.now }
    ensures { result ≡ length_in bytes.now }
{
    u32::from_be_bytes([bytes[0], bytes[1], bytes[2], bytes[3]]) as usize
}

/// What `open_datagram` answers, as one fact.
fn read_datagram<'a>(bytes: &'a [u8]) -> Result<Datagram<'a>, DgFault>
    ensures { Answers bytes.now result }
{
    if bytes.len() > MOST_BYTES {
        return Err(DgFault::TooLong);
    }
    let Some((first, behind)) = sequence_at_front(bytes) else {
        return Err(DgFault::NoSequence);
    };
    let tail = behind_applications(behind);
    if tail.is_empty() {
        Ok(Datagram {
            first,
            rest: behind,
        })
    } else {
        Err(DgFault::BadFrame {
            at: (bytes.len() - tail.len()) as u64,
        })
    }
}

/// The number of the Sequence at the front, and what stands behind its frame.
fn sequence_at_front(bytes: &[u8]) -> Option<(u64, &[u8])>
    ensures found { IfSome result (λ p. BeginsWithSequence bytes.now p.0 p.1.now) }
    ensures none { IfNone result ((first : ℕ) (behind : List ℕ) → BeginsWithSequence bytes.now first behind → ⊥) }
{
    match written_sequence(bytes) {
        Some(found) => Some(found),
        None => any_sequence(bytes),
    }
}

/// The same of a Sequence that is written as `pack` does it, which is told by its bytes at once.
fn written_sequence(bytes: &[u8]) -> Option<(u64, &[u8])>
    ensures found { IfSome result (λ p. BeginsWithSequence bytes.now p.0 p.1.now) }
{
    let rest = behind_head(bytes)?;
    if rest.len() < NUMBER_SIZE {
        return None;
    }
    let (number, behind) = rest.split_at(NUMBER_SIZE);
    Some((number_of(number), behind))
}

/// What stands behind the head of a Sequence that is written so.
fn behind_head(bytes: &[u8]) -> Option<&[u8]>
    ensures found { IfSome result (λ rest. bytes.now ≡ sequence_head ++ rest.now) }
{
    bytes.strip_prefix(&SEQUENCE_HEAD)
}

/// The number in 8 bytes, the low one first.
fn number_of(bytes: &[u8]) -> u64
    requires { length bytes.now ≡ 8 }
    ensures spelled { to_le_bytes w64 result ≡ bytes.now }
    ensures small { result < 2 ^ 64 }
{
    u64::from_le_bytes([
        bytes[0], bytes[1], bytes[2], bytes[3], bytes[4], bytes[5], bytes[6], bytes[7],
    ])
}

/// The number of any Sequence at the front, and what stands behind its frame.
fn any_sequence(bytes: &[u8]) -> Option<(u64, &[u8])>
    ensures found { IfSome result (λ p. BeginsWithSequence bytes.now p.0 p.1.now) }
    ensures none { IfNone result ((first : ℕ) (behind : List ℕ) → BeginsWithSequence bytes.now first behind → ⊥) }
{
    let FirstFrame::Frame {
        order,
        message,
        size,
    } = sofh_frame::next(bytes)
    else {
        return None;
    };
    let Some(number) = sequence_number(order, message) else {
        return None;
    };
    let (_, behind) = bytes.split_at(size);
    Some((number, behind))
}

/// The number that a message has, if it is a Sequence.
fn sequence_number(order: Order, message: &[u8]) -> Option<u64>
    requires { 8 ≤ length message.now }
    ensures session { IfSome result (λ _. kind_of order message.now ≡ Session) }
    ensures found { IfSome result (λ n. Spells message.now (sequence n)) }
    ensures none { IfNone result ((n : ℕ) → kind_of order message.now ≡ Session → Spells message.now (sequence n) → ⊥) }
{
    match kind(order, message) {
        FrameKind::Session => match read(message) {
            Ok(found) => next_seq_of(&found),
            Err(_fault) => None,
        },
        FrameKind::App | FrameKind::Wrong => None,
    }
}

/// The number of a session message, if it is a Sequence.
fn next_seq_of(message: &SessionMsg<'_>) -> Option<u64>
    ensures found { IfSome result (λ n. message_of message.now ≡ sequence n) }
    ensures none { IfNone result ((n : ℕ) → message_of message.now ≡ sequence n → ⊥) }
{
    match message {
        SessionMsg::Sequence(sequence) => Some(sequence.next_seq),
        SessionMsg::Negotiate(_)
        | SessionMsg::NegotiationResponse(_)
        | SessionMsg::NegotiationReject(_)
        | SessionMsg::Establish(_)
        | SessionMsg::EstablishmentAck(_)
        | SessionMsg::EstablishmentReject(_)
        | SessionMsg::UnsequencedHeartbeat(_)
        | SessionMsg::RetransmitRequest(_)
        | SessionMsg::Retransmission(_)
        | SessionMsg::RetransmitReject(_)
        | SessionMsg::Applied(_)
        | SessionMsg::NotApplied(_)
        | SessionMsg::FinishedSending(_)
        | SessionMsg::FinishedReceiving(_)
        | SessionMsg::Terminate(_) => None,
    }
}

/// What stands behind the whole application frames at the front.
fn behind_applications(bytes: &[u8]) -> &[u8]
    ensures found { (payloads : List (List ℕ)) × BeginsWithApplications bytes.now payloads result.now }
    ensures none { (f : Frame) (more : List ℕ) → IsApplicationFrame f → result.now ≡ spelled f ++ more → ⊥ }
{
    let mut rest = bytes;
    while let Some(size) = application_size(rest) {
        let (_, behind) = rest.split_at(size);
        rest = behind;
    }
    rest
}

/// The size in bytes of the application frame at the front, if one stands there.
fn application_size(bytes: &[u8]) -> Option<usize>
    ensures found { IfSome result (BeginsWithApplication bytes.now) }
    ensures none { IfNone result ((f : Frame) (more : List ℕ) → IsApplicationFrame f → bytes.now ≡ spelled f ++ more → ⊥) }
{
    let FirstFrame::Frame {
        order,
        message,
        size,
    } = sofh_frame::next(bytes)
    else {
        return None;
    };
    match kind(order, message) {
        FrameKind::App => Some(size),
        FrameKind::Session | FrameKind::Wrong => None,
    }
}

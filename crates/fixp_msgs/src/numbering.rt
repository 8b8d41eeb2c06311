//! The implied numbers of application messages (FIXP 1.1, implicit sequence numbering): ranges of them, and a counter.
//! It relies on the reading of session messages.

ghost use Rattle.std.specs.Prelude.{◌≡◌, ℕ, ◌+◌, ◌≤◌, Option, Some, None, [], ◌∷◌, length, option_map, option_to_list};
ghost use Rattle.sofh_frame.specs.Framing.{Frame};
ghost use Rattle.session_model.specs.Events.{numbered, standing as standing_behind};
ghost use Rattle.sbe_prim.specs.declared.Order.TheVariants.{Little};
ghost use Rattle.fixp_msgs.specs.declared.frames.FrameKind.TheVariants.{Session};
ghost use Rattle.fixp_msgs.specs.Header.{kind_of};
ghost use Rattle.fixp_msgs.specs.Message.{message_of};
ghost use Rattle.fixp_msgs.specs.Spelled.{message_in};
ghost use Rattle.fixp_msgs.specs.Numbering.{announcement_of, event_of, events_of, fitting, numbers_of};
ghost use Rattle.fixp_msgs.specs.Counting.{event_seen};

use crate::frames::{FrameKind, kind};
use crate::messages::SessionMsg;
use crate::reading::by_template;
use sbe_prim::Order;
use std::marker::Model;

/// `count` consecutive numbers of application messages, `from` on.
#[derive(Clone, Copy, Debug, PartialEq, Eq)]
pub struct Range {
    /// The first number, at least 1.
    pub from: u64,
    /// How many numbers.
    pub count: u64,
}

/// What a frame says to the numbering.
#[derive(Clone, Copy)]
pub enum Seen {
    /// It is an application message, which takes a number.
    Application,
    /// It is of the handshake, and announces the next number, or that there is none.
    Handshake(Option<u64>),
    /// It announces the next number within the flow.
    InFlow(u64),
    /// Nothing.
    Other,
}

/// What a session message says to the numbering.
fn announcement(message: &SessionMsg<'_>) -> Seen
    ensures { (f : Frame) → event_seen result f ≡ announcement_of (message_of message.now) }
{
    match message {
        SessionMsg::Establish(m) => Seen::Handshake(m.next_seq),
        SessionMsg::EstablishmentAck(m) => Seen::Handshake(m.next_seq),
        SessionMsg::Sequence(m) => Seen::InFlow(m.next_seq),
        SessionMsg::Retransmission(m) => Seen::InFlow(m.next_seq),
        SessionMsg::Negotiate(_)
        | SessionMsg::NegotiationResponse(_)
        | SessionMsg::NegotiationReject(_)
        | SessionMsg::EstablishmentReject(_)
        | SessionMsg::UnsequencedHeartbeat(_)
        | SessionMsg::RetransmitRequest(_)
        | SessionMsg::RetransmitReject(_)
        | SessionMsg::Applied(_)
        | SessionMsg::NotApplied(_)
        | SessionMsg::FinishedSending(_)
        | SessionMsg::FinishedReceiving(_)
        | SessionMsg::Terminate(_) => Seen::Other,
    }
}

/// The session message that the bytes spell, if they spell one.
fn message_spelled(message: &[u8]) -> Option<SessionMsg<'_>>
    requires header { 8 ≤ length message.now }
    requires session { kind_of Little message.now ≡ Session }
    ensures { option_map message_of result ≡ message_in message.now }
{
    match by_template(message) {
        Ok(found) => Some(found),
        Err(_fault) => None,
    }
}

/// What a frame says to the numbering. `message` begins with its SBE header of 8 bytes.
fn look(order: Order, message: &[u8]) -> Seen
    requires { 8 ≤ length message.now }
    ensures { event_seen result (record { order = order; message = message.now }) ≡ event_of (record { order = order; message = message.now }) }
{
    match kind(order, message) {
        FrameKind::App => Seen::Application,
        FrameKind::Wrong => Seen::Other,
        FrameKind::Session => match message_spelled(message) {
            Some(found) => announcement(&found),
            None => Seen::Other,
        },
    }
}

/// The number behind this one, where it is below 2^64.
fn next(number: Option<u64>) -> Option<u64>
    ensures { result ≡ fitting (option_map (λ n. n + 1) number) }
{
    match number {
        Some(number) => number.checked_add(1),
        None => None,
    }
}

/// Counts the implied numbers of the application messages in one direction of a connection. Contracts see it as the
/// number of the next one, where one stands announced and is below 2^64.
#[derive(Drop)]
pub struct Counter {
    standing: Option<u64>,
}

impl Model for Counter {
    ghost use Rattle.std.specs.Prelude.{ℕ, Option};

    ghost Value = { Option ℕ };

    ghost view = { λ c. c.standing };
}

impl Counter {
    /// A counter at the beginning of a connection, where nothing stands announced.
    pub fn new() -> Counter
        ensures { result ≡ None }
    {
        Counter { standing: None }
    }

    /// The implied number of the frame's message, if it is an application message, a number stands announced, and
    /// the number is below 2^64. `message` begins with its SBE header of 8 bytes.
    pub fn see(&mut self, order: Order, message: &[u8]) -> Option<u64>
        requires { 8 ≤ length message.now }
        ensures number { (c : Option ℕ) → self.old ≡ fitting c
            → option_to_list result ≡ numbers_of (numbered c (events_of (record { order = order; message = message.now } ∷ []))) }
        ensures after { (c : Option ℕ) → self.old ≡ fitting c
            → self.new ≡ fitting (standing_behind c (events_of (record { order = order; message = message.now } ∷ []))) }
    {
        match look(order, message) {
            Seen::Application => {
                let number = self.standing;
                self.standing = next(number);
                number
            }
            Seen::Handshake(next) => {
                self.standing = next;
                None
            }
            Seen::InFlow(next) => {
                self.standing = Some(next);
                None
            }
            Seen::Other => None,
        }
    }
}

//! What the plain program reads and writes: events of a flow, numbered messages, and records of an inbox.
//! Numbers are counted in `u128`, so that counting on from any announced number fits.

/// The kind of a flow (FIXP 1.1, FlowType).
#[derive(Clone, Copy)]
pub enum Flow {
    /// Exactly once, in order.
    Recoverable,
    /// At most once; the sender learns what was not applied.
    Idempotent,
    /// Best effort.
    Unsequenced,
    /// No flow in this direction.
    NoFlow,
}

/// An entry of an outbound journal.
#[derive(Clone, Copy)]
pub struct Entry<'a> {
    /// Which sender handed it in.
    pub sender: u64,
    /// The how-manieth of that sender it is, from 1 on.
    pub own_number: u64,
    pub payload: &'a [u8],
}

/// Who announces a number.
#[derive(Clone, Copy)]
pub enum Announcer {
    /// Establish or EstablishmentAck.
    Handshake,
    /// Sequence or Retransmission.
    InFlow,
}

/// An event of a flow on a connection.
#[derive(Clone, Copy)]
pub enum Event<'a> {
    /// An announcement of the next number, or of none.
    Announce(Announcer, Option<u64>),
    /// An application message, with its payload.
    Message(&'a [u8]),
}

/// A message with its implied number, from 1 on.
#[derive(Clone, Copy, PartialEq, Eq)]
pub struct Numbered<'a> {
    pub number: u128,
    pub payload: &'a [u8],
}

/// `count` numbers from `first` on.
#[derive(Clone, Copy, PartialEq, Eq)]
pub struct Range {
    pub first: u128,
    pub count: u128,
}

/// A record of an inbox.
#[derive(Clone, Copy, PartialEq, Eq)]
pub enum Record<'a> {
    /// A message was applied.
    Apply(Numbered<'a>),
    /// Numbers were jumped over, and are not applied.
    Skip(Range),
}

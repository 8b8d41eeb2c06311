//! What a title says.

use fixp_msgs::Flow;
use fixp_shake::Role;

/// Which of the two journals of an end.
#[derive(Clone, Copy, Debug, PartialEq, Eq)]
pub enum Which {
    Outbox,
    Inbox,
}

/// What desks read and answer by.
#[derive(Clone, Copy, Debug, PartialEq, Eq)]
pub struct Orders {
    /// The version of the order schema, 1 or 2.
    pub version: u16,
    /// The mantissa of the reference price, 1 to 10^15.
    pub reference: u64,
}

/// Who makes the messages that an end sends.
#[derive(Clone, Copy, Debug, PartialEq, Eq)]
pub enum WhoSends {
    /// Senders alone, whose messages come from outside.
    Senders,
    /// Desks, as the senders from 1 on: 1 to 16 of them.
    Desks { desks: u8, orders: Orders },
    /// One desk that keeps a book, as sender 1.
    Book { orders: Orders },
}

/// What a journal is bound to: what does not change from run to run of its session.
#[derive(Clone, Copy, Debug)]
pub struct Binding {
    pub which: Which,
    /// The role of the end whose journal it is.
    pub role: Role,
    /// The 16 bytes of the session's UUID.
    pub session: [u8; 16],
    /// The flow that the client sends.
    pub client_flow: Flow,
    /// The flow that the server sends.
    pub server_flow: Flow,
    pub who_sends: WhoSends,
}

/// The title of a journal.
#[derive(Clone, Copy, Debug)]
pub struct Title {
    pub binding: Binding,
    /// A number that is drawn once for both journals of an end, when they are made.
    pub pair: u64,
}

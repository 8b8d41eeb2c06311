//! Why a line of INPUT was not sent.

use plan_feed::Wrong;

/// Why a line of INPUT was not sent.
#[derive(Clone, Copy)]
pub enum Why {
    /// It gives no payload to a sender.
    Wrong(Wrong),
    /// It is longer than any line that gives one.
    TooLong,
    /// The outbox is at a limit.
    Full,
    /// The outbox is finished.
    Closed,
    /// A call of the outbox's disk failed.
    Failed,
    /// There was not enough memory.
    Memory,
}

//! How a turn ends.

use fixp_replies::Ending;

/// How a turn ended that did not fail.
#[derive(Clone, Copy)]
pub enum TurnEnd {
    /// The connection goes on.
    Go,
    /// The connection has ended so.
    Ended(Ending),
}

/// Why a turn failed. After `Link` the next connection may begin; after any other the connection is given up for good.
#[derive(Clone, Copy)]
pub enum TurnFault {
    /// The link failed before both finishes were exchanged.
    Link,
    /// The inbox's disk failed.
    Inbox,
    /// The outbox's disk failed.
    Outbox,
    /// The outbox's disk gave another record than was written at this index, from 0 on.
    Changed { at: u64 },
    /// A call of the disk of the inbox or of the outbox has failed since its opening.
    Broken,
    /// The inbox is at a limit for the record to be added: so many messages are applied, and its journal has so many bytes.
    Full { entries: u64, bytes: u64 },
    /// There is not enough memory.
    Memory,
}

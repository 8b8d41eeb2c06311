//! What the values of a configuration are admitted to be, for readers and for messages.

/// The whole numbers from the least to the greatest.
#[derive(Clone, Copy)]
pub struct Range {
    pub least: u64,
    pub greatest: u64,
}

/// The heartbeat interval, in milliseconds.
pub const KEEPALIVE: Range = Range {
    least: 100,
    greatest: 60_000,
};

/// The number of senders.
pub const SENDERS: Range = Range {
    least: 0,
    greatest: 16,
};

/// The number of desks.
pub const DESKS: Range = Range {
    least: 0,
    greatest: 16,
};

/// The version of the order schema.
pub const ORDER_VERSION: Range = Range {
    least: 1,
    greatest: 2,
};

/// The mantissa of the reference price.
pub const REFERENCE: Range = Range {
    least: 1,
    greatest: 1_000_000_000_000_000,
};

/// The version of the session schema.
pub const SESSION_VERSION: Range = Range {
    least: 0,
    greatest: 1,
};

/// The words of flows.
pub const FLOW_WORDS: &[&str] = &["recoverable", "idempotent", "unsequenced", "none"];

//! How the lines of messages are written.

/// How many senders there may be.
pub const SENDERS: u64 = 16;

/// How the lines of messages are written.
#[derive(Clone, Copy, Debug)]
pub enum Form {
    /// `S HEX`: the sender, and the payload.
    Plain,
    /// `S K HEX`: the sender, the number of the message among its sender's, and the payload. The first message of each sender, from sender 1
    /// on, has the number that stands here.
    Numbered([u64; 16]),
}

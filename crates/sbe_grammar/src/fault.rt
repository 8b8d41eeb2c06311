//! Why bytes spell no message.

/// The first fault of bytes that spell no message by a plan. Places are counted in bytes from the message's first.
#[derive(Clone, Copy, Debug)]
pub enum DecodeFault {
    /// The header, block, dimension, length of data or data at this place is not whole.
    Truncated {
        /// Where it begins.
        at: u64,
    },
    /// The message is of another schema.
    OtherSchema {
        /// The schema's id by the message's header.
        id: u16,
    },
    /// The schema has no message of this template.
    UnknownTemplate {
        /// The template's id.
        id: u16,
    },
    /// The block at this place is too short for the fields of the message's version.
    ShortBlock {
        /// Where it begins.
        at: u64,
        /// Its length in bytes, as the message tells it.
        found: u64,
        /// Where the last of those fields ends, in bytes from the block's first.
        needed: u128,
    },
}

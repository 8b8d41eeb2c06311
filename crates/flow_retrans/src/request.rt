//! What is outstanding of a receiver's requests.

use fixp_msgs::Range;

/// The request that is outstanding, if there is one.
#[derive(Clone, Copy)]
pub enum Request {
    /// There is none.
    Nothing,
    /// This range was asked for, and no Retransmission came.
    Asked(Range),
    /// A Retransmission answers the request for `range`.
    Coming {
        range: Range,
        /// The number of the retransmission's next message.
        next: u64,
        /// How many of its messages are still to come.
        left: u64,
    },
}

//! What an end asks of its caller, and how a connection ends.

use fixp_shake::Violation;

/// What the caller is to do about a frame. Acts that are records are made stable before `End::did`.
#[derive(Clone, Copy, Debug)]
pub enum Act {
    /// Nothing.
    Nothing,
    /// Apply the frame's application message under this number. A record.
    Apply { number: u64 },
    /// Skip these numbers, which will not come. A record.
    Skip { from: u64, count: u64 },
    /// Record that the session is negotiated. A record.
    Negotiated,
    /// Record that the peer's flow has ended with this number. A record.
    PeerFinished { last: u64 },
    /// Tell the business that the peer did not apply these numbers.
    Told { from: u64, count: u32 },
    /// Nothing: the connection has ended.
    Ended,
}

impl Act {
    ghost use Rattle.std.specs.Prelude.{◌≡◌};
    ghost use Rattle.fixp_replies.specs.Acts.{is_record};

    /// Whether the caller makes the act stable in a journal before `End::did`.
    pub fn is_record(self) -> bool
        ensures { result ≡ is_record self }
    {
        match self {
            Act::Apply { .. } | Act::Skip { .. } | Act::Negotiated | Act::PeerFinished { .. } =>
                true,
            Act::Nothing | Act::Told { .. } | Act::Ended => false,
        }
    }
}

/// How a connection ended.
#[derive(Clone, Copy, Debug)]
pub enum Ending {
    /// Both finishes were exchanged before.
    Finished,
    /// The peer terminated, with its code.
    PeerTerminated { code: u8 },
    /// No more bytes come.
    LinkEnded,
    /// The peer rejected the handshake, by the message with this template.
    Rejected { template: u16, code: u8 },
    /// The peer broke a rule.
    Violation(Violation),
}

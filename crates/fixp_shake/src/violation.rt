//! The rules of a session that a peer may break.

use crate::phase::Phase;

/// A rule of the session that the peer broke (FIXP 1.1; the numbers are this project's profile).
#[derive(Clone, Copy, Debug)]
pub enum Violation {
    /// 1. The framing, the byte order or the layout of a session message is wrong.
    BadFrame { at: u64 },
    /// 2. No session message has this template id.
    UnknownTemplate { id: u16 },
    /// 3. The message does not belong into the phase; template 0 is an application message.
    NotInPhase { template: u16, phase: Phase },
    /// 4. The message names another session.
    OtherSession { template: u16 },
    /// 5. An announced number is below the one expected.
    WentBack { announced: u64, expected: u64 },
    /// 6. A sequenced flow announces no number.
    MissingNext { template: u16 },
    /// 7. A number is above the limit.
    NumberTooLarge { announced: u64 },
    /// 8. A retransmission does not match its request.
    BadRetransmission { expected: u64, found: u64 },
    /// 9. A message comes after the finish of its flow.
    AfterFinish { last: u64, found: u64 },
    /// 10. A message comes on a flow that does not exist.
    FlowNone { template: u16 },
    /// 11. Nothing came for three heartbeat intervals.
    Silent { last: u64, now: u64 },
    /// 12. The handshake took too long.
    HandshakeLate { start: u64, now: u64 },
}

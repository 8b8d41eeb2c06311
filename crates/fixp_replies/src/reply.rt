//! What an end does at one event, and how such replies are made.

ghost use Rattle.std.specs.Prelude.{◌≡◌, [], ◌∷◌, ◌++◌, ◌+◌, ◌<◌, ◌≤◌, ◌^◌, Some, IfSome};
ghost use Rattle.fixp_msgs.specs.Message.{not_applied};
ghost use Rattle.fixp_replies.specs.Facts.{around_of, gap_to_ask, having_asked};
ghost use Rattle.fixp_replies.specs.Outcomes.{timestamp, request_for, goes_on, accepts, rejects, ignores, ends_with, ends, breaks, not_in_phase, skip_of, told_skip};
ghost use Rattle.fixp_replies.specs.Outgoing.{messages_of, outgoing_message, frame_limit, place_limit, written_limit, outcome_of};

use crate::act::{Act, Ending};
use crate::facts::{Around, Facts};
use crate::standing::{ends_as, gap};
use fixp_msgs::{Expected, Range};
use fixp_shake::Violation;

/// A message that an end writes, of its session where it names none. Timestamps are the clock's milliseconds times 1,000,000,
/// or repeat that of the request which is answered.
#[derive(Clone, Copy, Debug)]
pub enum Outgoing {
    Negotiate {
        timestamp: u64,
    },
    NegotiationResponse {
        request_timestamp: u64,
    },
    /// It names the session of the request that it rejects.
    NegotiationReject {
        session_id: [u8; 16],
        request_timestamp: u64,
        code: u8,
    },
    Establish {
        timestamp: u64,
        next: Option<u64>,
        expected: Expected,
    },
    EstablishmentAck {
        request_timestamp: u64,
        next: Option<u64>,
        expected: Expected,
    },
    /// It names the session of the request that it rejects.
    EstablishmentReject {
        session_id: [u8; 16],
        request_timestamp: u64,
        code: u8,
    },
    Sequence {
        next: u64,
    },
    UnsequencedHeartbeat,
    RetransmitRequest {
        timestamp: u64,
        from: u64,
        count: u32,
    },
    Retransmission {
        request_timestamp: u64,
        from: u64,
        count: u32,
    },
    /// It names the session of the request that it rejects.
    RetransmitReject {
        session_id: [u8; 16],
        request_timestamp: u64,
        code: u8,
    },
    Applied {
        from: u64,
        count: u32,
    },
    NotApplied {
        from: u64,
        count: u32,
    },
    FinishedSending {
        last: Option<u64>,
    },
    FinishedReceiving,
    Terminate {
        code: u8,
    },
}

/// The messages of one reply, in order.
pub type Written = [Option<Outgoing>; 3];

/// What an end does at one event, beside what it makes of the facts.
#[derive(Clone, Copy, Debug)]
pub struct Reply {
    /// What the caller is to do.
    pub act: Act,
    /// What is written once the act is done, in order.
    pub written: Written,
    /// The connection's ending, if this is it.
    pub ending: Option<Ending>,
    /// Whether the frame is accepted: it neither ends the connection nor is rejected nor ignored.
    pub accepted: bool,
    /// The number under which the frame's message is held until the gap before it is filled, if it is.
    pub holds: Option<u64>,
}

/// A gap is asked for where there is one, no request is open, and the peer has started: the request.
fn ask(around: &Around<'_>, facts: &mut Facts) -> Option<Outgoing>
    requires { around.now.moment < 2 ^ 44 }
    ensures request { messages_of around.now.config.now (result ∷ []) ≡ request_for (around_of around.now) (gap_to_ask (around_of around.now) facts.old) }
    ensures asked { facts.new ≡ having_asked facts.old (gap_to_ask (around_of around.now) facts.old) }
    ensures recorded { facts.new.recorded ≡ facts.old.recorded }
    ensures small { place_limit around.now.config.now result ≤ 64 }
{
    if facts.connection.soft {
        return None;
    }
    let Some(gap) = gap(around, facts) else {
        return None;
    };
    let Some(range) = facts.connection.requester.want(gap) else {
        return None;
    };
    Some(Outgoing::RetransmitRequest {
        timestamp: timestamp(around),
        from: range.from,
        count: range.count as u32,
    })
}

/// These numbers are told to be not applied.
fn not_applied(range: Range) -> Outgoing
    requires { range.count < 2 ^ 32 }
    ensures message { (cfg : _) → outgoing_message cfg result ≡ not_applied range.from range.count }
    ensures small { (cfg : _) → frame_limit cfg result ≤ 64 }
{
    Outgoing::NotApplied {
        from: range.from,
        count: range.count as u32,
    }
}

/// The timestamp of a message that is written now.
pub fn timestamp(around: &Around<'_>) -> u64
    requires { around.now.moment < 2 ^ 44 }
    ensures { result ≡ timestamp (around_of around.now) }
{
    around.moment * 1_000_000
}

impl Reply {
    /// The connection goes on: the frame is accepted, and behind this message a gap is asked for, if there is one.
    pub fn goes_on(
        around: &Around<'_>,
        facts: &mut Facts,
        act: Act,
        message: Option<Outgoing>,
    ) -> Reply
        requires { around.now.moment < 2 ^ 44 }
        ensures reply { outcome_of around.now.config.now result facts.new ≡ goes_on (around_of around.now) act (messages_of around.now.config.now (message ∷ [])) facts.old }
        ensures recorded { facts.new.recorded ≡ facts.old.recorded }
        ensures small { written_limit around.now.config.now result.written ≤ place_limit around.now.config.now message + 64 }
    {
        let request = ask(around, facts);
        Reply {
            act,
            written: [message, request, None],
            ending: None,
            accepted: true,
            holds: None,
        }
    }

    /// The frame is accepted, and the caller has nothing to do.
    pub fn accepts(around: &Around<'_>, facts: &mut Facts, message: Option<Outgoing>) -> Reply
        requires { around.now.moment < 2 ^ 44 }
        ensures reply { outcome_of around.now.config.now result facts.new ≡ accepts (around_of around.now) (messages_of around.now.config.now (message ∷ [])) facts.old }
        ensures recorded { facts.new.recorded ≡ facts.old.recorded }
        ensures small { written_limit around.now.config.now result.written ≤ place_limit around.now.config.now message + 64 }
    {
        Reply::goes_on(around, facts, Act::Nothing, message)
    }

    /// The frame is accepted, and what its announcement jumps over is skipped, and told behind this message.
    pub fn skips(
        around: &Around<'_>,
        facts: &mut Facts,
        message: Option<Outgoing>,
        skipped: Option<Range>,
    ) -> Reply
        requires moment { around.now.moment < 2 ^ 44 }
        requires count { IfSome skipped (λ range. range.count < 2 ^ 32) }
        ensures reply { outcome_of around.now.config.now result facts.new
            ≡ goes_on (around_of around.now) (skip_of skipped) (messages_of around.now.config.now (message ∷ []) ++ told_skip skipped) facts.old }
        ensures recorded { facts.new.recorded ≡ facts.old.recorded }
        ensures small { written_limit around.now.config.now result.written ≤ place_limit around.now.config.now message + 128 }
    {
        let Some(range) = skipped else {
            return Reply::accepts(around, facts, message);
        };
        let told = not_applied(range);
        let request = ask(around, facts);
        Reply {
            act: Act::Skip {
                from: range.from,
                count: range.count,
            },
            written: [message, Some(told), request],
            ending: None,
            accepted: true,
            holds: None,
        }
    }

    /// The handshake is done: what its announcement jumps over is skipped and told, and behind it stands this message.
    pub fn starts(
        around: &Around<'_>,
        facts: &mut Facts,
        skipped: Option<Range>,
        message: Option<Outgoing>,
    ) -> Reply
        requires moment { around.now.moment < 2 ^ 44 }
        requires count { IfSome skipped (λ range. range.count < 2 ^ 32) }
        ensures reply { outcome_of around.now.config.now result facts.new
            ≡ goes_on (around_of around.now) (skip_of skipped) (told_skip skipped ++ messages_of around.now.config.now (message ∷ [])) facts.old }
        ensures recorded { facts.new.recorded ≡ facts.old.recorded }
        ensures small { written_limit around.now.config.now result.written ≤ place_limit around.now.config.now message + 128 }
    {
        let Some(range) = skipped else {
            return Reply::accepts(around, facts, message);
        };
        let told = not_applied(range);
        let request = ask(around, facts);
        Reply {
            act: Act::Skip {
                from: range.from,
                count: range.count,
            },
            written: [Some(told), message, request],
            ending: None,
            accepted: true,
            holds: None,
        }
    }

    /// The frame is rejected by this message, and the connection goes on as it was.
    pub fn rejects(facts: &Facts, message: Outgoing) -> Reply
        ensures reply { (cfg : _) → outcome_of cfg result facts.now ≡ rejects (outgoing_message cfg message ∷ []) facts.now }
        ensures small { (cfg : _) → written_limit cfg result.written ≤ place_limit cfg (Some message) }
    {
        let _unchanged = facts;
        Reply {
            act: Act::Nothing,
            written: [Some(message), None, None],
            ending: None,
            accepted: false,
            holds: None,
        }
    }

    /// Nothing is done about the frame.
    pub fn ignores(facts: &Facts) -> Reply
        ensures reply { (cfg : _) → outcome_of cfg result facts.now ≡ ignores facts.now }
        ensures small { (cfg : _) → written_limit cfg result.written ≤ 0 }
    {
        let _unchanged = facts;
        Reply {
            act: Act::Nothing,
            written: [None, None, None],
            ending: None,
            accepted: false,
            holds: None,
        }
    }

    /// The connection ends, and this is written.
    pub fn ends_with(
        around: &Around<'_>,
        facts: &Facts,
        message: Option<Outgoing>,
        ending: Ending,
    ) -> Reply
        ensures reply { outcome_of around.now.config.now result facts.now ≡ ends_with (around_of around.now) facts.now (messages_of around.now.config.now (message ∷ [])) ending }
        ensures small { written_limit around.now.config.now result.written ≤ place_limit around.now.config.now message }
    {
        Reply {
            act: Act::Ended,
            written: [message, None, None],
            ending: Some(ends_as(around, facts, ending)),
            accepted: false,
            holds: None,
        }
    }

    /// The connection ends with a Terminate.
    pub fn ends(around: &Around<'_>, facts: &Facts, code: u8, ending: Ending) -> Reply
        ensures reply { outcome_of around.now.config.now result facts.now ≡ ends (around_of around.now) facts.now code ending }
        ensures small { written_limit around.now.config.now result.written ≤ 64 }
    {
        Reply::ends_with(around, facts, Some(Outgoing::Terminate { code }), ending)
    }

    /// The peer broke a rule: unspecified error.
    pub fn breaks(around: &Around<'_>, facts: &Facts, violation: Violation) -> Reply
        ensures reply { outcome_of around.now.config.now result facts.now ≡ breaks (around_of around.now) facts.now violation }
        ensures small { written_limit around.now.config.now result.written ≤ 64 }
    {
        Reply::ends(around, facts, 2, Ending::Violation(violation))
    }

    /// The message does not belong into the phase.
    pub fn not_in_phase(around: &Around<'_>, facts: &Facts, template: u16) -> Reply
        ensures reply { outcome_of around.now.config.now result facts.now ≡ not_in_phase (around_of around.now) facts.now template }
        ensures small { written_limit around.now.config.now result.written ≤ 64 }
    {
        let phase = facts.connection.phase;
        Reply::breaks(around, facts, Violation::NotInPhase { template, phase })
    }
}

//! What the facts tell: the numbers of the next messages, and how far the finishes have come.

ghost use Rattle.std.specs.Prelude.{◌≡◌, ◌+◌, ◌<◌, ◌≤◌, ◌^◌, IfSome};
ghost use Rattle.fixp_replies.specs.Facts.{around_of, is_initiator, is_own, live_number, gap_of, expected_number, message_number, announced_number, peer_last, is_told, is_open, own_is_exchanged, peer_is_exchanged, finishes_exchanged};
ghost use Rattle.fixp_replies.specs.Outcomes.{ends_as};

use crate::act::Ending;
use crate::facts::{Around, Facts, OwnFinish, PeerFinish};
use fixp_msgs::Range;
use fixp_shake::{Role, is_absent, is_recoverable, is_sequenced, is_shaken};

/// Whether it is the side that opens each connection.
pub fn is_initiator(role: Role) -> bool
    ensures { result ≡ is_initiator role }
{
    matches!(role, Role::Initiator)
}

/// Whether a message with this identifier is of the own session.
pub fn is_own(around: &Around<'_>, session_id: &[u8; 16]) -> bool
    ensures { result ≡ is_own (around_of around.now) session_id.now }
{
    *session_id == around.config.session
}

/// The number that the next live message of the peer's flow has.
pub fn live_number(around: &Around<'_>, facts: &Facts) -> u64
    ensures { result ≡ live_number (around_of around.now) facts.now }
{
    if is_recoverable(around.config.peer_flow) {
        facts.connection.receiver.live()
    } else {
        facts.recorded.inbox_next
    }
}

/// The numbers that are missing, up to the least one held, or up to the live number where none is held.
pub fn gap(around: &Around<'_>, facts: &Facts) -> Option<Range>
    ensures exact { result ≡ gap_of (around_of around.now) facts.now }
    ensures within { IfSome result (λ g. (1 ≤ g.count) × (g.from + g.count < 2 ^ 64)) }
{
    if is_recoverable(around.config.peer_flow) {
        facts.connection.receiver.gap(around.held)
    } else {
        None
    }
}

/// The least number that may be announced.
pub fn expected_number(around: &Around<'_>, facts: &Facts) -> u64
    ensures { result ≡ expected_number (around_of around.now) facts.now }
{
    if is_recoverable(around.config.peer_flow) {
        if facts.connection.soft {
            facts.connection.receiver.next()
        } else {
            facts.connection.receiver.expected()
        }
    } else {
        facts.recorded.inbox_next
    }
}

/// The number of the next application message.
pub fn message_number(around: &Around<'_>, facts: &Facts) -> u64
    ensures { result ≡ message_number (around_of around.now) facts.now }
{
    if is_recoverable(around.config.peer_flow) {
        facts.connection.receiver.number()
    } else {
        facts.recorded.inbox_next
    }
}

/// The number that this end announces of its own flow, if that has numbers.
pub fn announced_number(around: &Around<'_>, facts: &Facts) -> Option<u64>
    requires { facts.now.recorded.sent < 2 ^ 40 }
    ensures { result ≡ announced_number (around_of around.now) facts.now }
{
    if is_sequenced(around.config.own_flow) {
        Some(facts.recorded.sent + 1)
    } else {
        None
    }
}

/// The last number of the peer's flow, where its finish came on this connection or is recorded.
pub fn peer_last(facts: &Facts) -> Option<u64>
    ensures { result ≡ peer_last facts.now }
{
    match facts.connection.peer_finish {
        PeerFinish::Open => facts.recorded.peer_last,
        PeerFinish::Read(last) | PeerFinish::Exchanged(last) => Some(last),
    }
}

/// Whether the answer to the own finish is awaited.
pub fn is_told(finish: OwnFinish) -> bool
    ensures { result ≡ is_told finish }
{
    matches!(finish, OwnFinish::Told)
}

/// Whether the own finish was not told.
pub fn is_open(finish: OwnFinish) -> bool
    ensures { result ≡ is_open finish }
{
    matches!(finish, OwnFinish::Open)
}

/// Whether the own finish was answered.
fn own_is_exchanged(finish: OwnFinish) -> bool
    ensures { result ≡ own_is_exchanged finish }
{
    matches!(finish, OwnFinish::Exchanged)
}

/// Whether the peer's finish was answered.
fn peer_is_exchanged(finish: PeerFinish) -> bool
    ensures { result ≡ peer_is_exchanged finish }
{
    matches!(finish, PeerFinish::Exchanged(_))
}

/// Whether both finishes are exchanged on this connection.
pub fn finishes_exchanged(around: &Around<'_>, facts: &Facts) -> bool
    ensures { result ≡ finishes_exchanged (around_of around.now) facts.now }
{
    let shaken = is_shaken(facts.connection.phase);
    (own_is_exchanged(facts.connection.own_finish) || (is_absent(around.config.own_flow) && shaken))
        && (peer_is_exchanged(facts.connection.peer_finish)
            || (is_absent(around.config.peer_flow) && shaken))
}

/// How a connection ends that would end so: once both finishes are exchanged it is finished.
pub fn ends_as(around: &Around<'_>, facts: &Facts, ending: Ending) -> Ending
    ensures { result ≡ ends_as (around_of around.now) facts.now ending }
{
    if finishes_exchanged(around, facts) {
        Ending::Finished
    } else {
        ending
    }
}

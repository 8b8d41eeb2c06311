//! What an end does at the events of a connection other than frames: its beginning, a tick of the clock, the end of a turn, the
//! outbox's finish, and the link's end.

ghost use Rattle.std.specs.Prelude.{◌≡◌, ◌<◌, ◌≤◌, ◌^◌, ◌∷◌, ◌++◌, [], List};
ghost use Rattle.fixp_msgs.specs.declared.numbering.Range.{Range};
ghost use Rattle.fixp_replies.specs.Facts.{around_of};
ghost use Rattle.fixp_replies.specs.Events.{begun, heartbeat, is_due, heartbeats, lateness, applied_runs, closes, turn_ended, outbox_finished, tells_finish, finish_told, link_ending};
ghost use Rattle.fixp_replies.specs.Outgoing.{messages_of, outgoing_message};

use crate::act::Ending;
use crate::facts::{Around, Connection, Facts, OwnFinish};
use crate::handshake::{opening_establish, opening_negotiate};
use crate::reply::Outgoing;
use crate::standing::{ends_as, finishes_exchanged, is_initiator, is_open};
use fixp_shake::{Phase, Violation, is_absent, is_established, is_sequenced, is_shaken};

/// How long a handshake may take, in milliseconds.
pub const HANDSHAKE_LIMIT: u64 = 10_000;

/// A connection begins, and what was known of the one before is forgotten: the first message of an initiator, which negotiates,
/// or establishes where the session was negotiated.
pub fn begin(around: &Around<'_>, facts: &mut Facts) -> Option<Outgoing>
    requires moment { around.now.moment < 2 ^ 44 }
    requires sent { facts.old.recorded.sent < 2 ^ 40 }
    ensures { record { written = messages_of around.now.config.now (result ∷ []); next = facts.new } ≡ begun (around_of around.now) facts.old.recorded }
{
    if !is_initiator(around.config.role) {
        facts.connection = Connection::new(&facts.recorded, Phase::Idle);
        None
    } else if facts.recorded.negotiated {
        facts.connection = Connection::new(&facts.recorded, Phase::Establishing);
        Some(opening_establish(around, facts))
    } else {
        facts.connection = Connection::new(&facts.recorded, Phase::Negotiating);
        Some(opening_negotiate(around))
    }
}

/// The heartbeat of the own flow.
fn heartbeat(around: &Around<'_>, facts: &Facts) -> Outgoing
    requires { facts.now.recorded.sent < 2 ^ 40 }
    ensures { outgoing_message around.now.config.now result ≡ heartbeat (around_of around.now) facts.now }
{
    if is_sequenced(around.config.own_flow) {
        Outgoing::Sequence {
            next: facts.recorded.sent + 1,
        }
    } else {
        Outgoing::UnsequencedHeartbeat
    }
}

/// Whether nothing was written for the own interval.
fn is_due(around: &Around<'_>, last_sent: u64) -> bool
    requires { last_sent ≤ around.now.moment }
    ensures { result ≡ is_due (around_of around.now) last_sent }
{
    u64::from(around.config.keepalive) <= around.moment - last_sent
}

/// The heartbeat that is due where nothing waits to be sent, if one is: in Established, where none of a range is to be sent
/// again. `last_sent` is the moment of the last frame written.
pub fn heartbeat_due(around: &Around<'_>, facts: &Facts, last_sent: u64) -> Option<Outgoing>
    requires sent { facts.now.recorded.sent < 2 ^ 40 }
    requires order { last_sent ≤ around.now.moment }
    ensures { messages_of around.now.config.now (result ∷ []) ≡ heartbeats (around_of around.now) facts.now last_sent [] }
{
    let is_written = is_established(facts.connection.phase)
        && facts.connection.serving.is_none()
        && is_due(around, last_sent);
    if is_written {
        Some(heartbeat(around, facts))
    } else {
        None
    }
}

/// The handshake, begun at the moment `start`, takes too long, or nothing came since the moment `last_received` for three of
/// the peer's intervals.
pub fn lateness(
    around: &Around<'_>,
    facts: &Facts,
    start: u64,
    last_received: u64,
) -> Option<Violation>
    requires start { start ≤ around.now.moment }
    requires received { last_received ≤ around.now.moment }
    ensures { result ≡ lateness (around_of around.now) facts.now start last_received }
{
    let now = around.moment;
    if is_shaken(facts.connection.phase) {
        let limit = 3 * u64::from(facts.connection.peer_interval);
        if limit <= now - last_received {
            return Some(Violation::Silent {
                last: last_received,
                now,
            });
        }
    } else if HANDSHAKE_LIMIT <= now - start {
        return Some(Violation::HandshakeLate { start, now });
    }
    None
}

/// Whether an initiator closes the connection: both finishes are exchanged, and nothing is to be sent again.
fn closes(around: &Around<'_>, facts: &Facts) -> bool
    ensures { result ≡ closes (around_of around.now) facts.now }
{
    is_initiator(around.config.role)
        && is_established(facts.connection.phase)
        && finishes_exchanged(around, facts)
        && facts.connection.serving.is_none()
}

/// The end of a turn, in which these runs of numbers are told as applied: the Terminate behind them by which an initiator
/// closes the connection, if it does.
pub fn end_turn(around: &Around<'_>, facts: &mut Facts) -> Option<Outgoing>
    ensures { (runs : List Range) → record { written = applied_runs runs ++ messages_of around.now.config.now (result ∷ []); next = facts.new } ≡ turn_ended (around_of around.now) facts.old runs }
{
    if !closes(around, facts) {
        return None;
    }
    facts.connection.phase = Phase::Closing;
    Some(Outgoing::Terminate { code: 1 })
}

/// The outbox has its finish behind this many entries.
pub fn outbox_finished(facts: &mut Facts, last: u64)
    ensures { facts.new ≡ outbox_finished facts.old last }
{
    facts.recorded.finish = Some(last);
}

/// Whether FinishedSending is written: once on each connection, where all that the outbox has was sent.
fn tells_finish(around: &Around<'_>, facts: &Facts, last: u64) -> bool
    ensures { result ≡ tells_finish (around_of around.now) facts.now last }
{
    !is_absent(around.config.own_flow)
        && is_established(facts.connection.phase)
        && is_open(facts.connection.own_finish)
        && facts.recorded.sent == last
        && facts.connection.serving.is_none()
}

/// The outbox has its finish behind this many entries: the FinishedSending that tells it, where it is to be written now.
pub fn tell_finish(around: &Around<'_>, facts: &mut Facts, last: u64) -> Option<Outgoing>
    ensures { record { written = messages_of around.now.config.now (result ∷ []); next = facts.new } ≡ finish_told (around_of around.now) facts.old last }
{
    let is_written = tells_finish(around, facts, last);
    outbox_finished(facts, last);
    if !is_written {
        return None;
    }
    facts.connection.own_finish = OwnFinish::Told;
    let last = if is_sequenced(around.config.own_flow) {
        Some(last)
    } else {
        None
    };
    Some(Outgoing::FinishedSending { last })
}

/// How a connection ends whose link ends.
pub fn link_ending(around: &Around<'_>, facts: &Facts) -> Ending
    ensures { result ≡ link_ending (around_of around.now) facts.now }
{
    ends_as(around, facts, Ending::LinkEnded)
}

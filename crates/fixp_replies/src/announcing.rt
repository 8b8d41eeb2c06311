//! Announcements of the peer's next number.

ghost use Rattle.std.specs.Prelude.{◌≡◌, ◌<◌, ◌≤◌, ◌^◌, if◌then◌else◌, IsNone, IfSome};
ghost use Rattle.flow_recover.specs.Receiving as receiver_is;
ghost use Rattle.fixp_replies.specs.Facts.{around_of, receiving, firm, awaiting};
ghost use Rattle.fixp_replies.specs.Announcing.{jumped_over, announced, announcement_fault, Fits};

use crate::facts::{Around, Facts};
use crate::standing::expected_number;
use fixp_msgs::Range;
use fixp_shake::{Violation, is_idempotent, is_recoverable, is_sequenced};

/// The rule that an announcement by the message of this template breaks, if it breaks one.
pub fn announcement_fault(
    around: &Around<'_>,
    facts: &Facts,
    template: u16,
    next: Option<u64>,
) -> Option<Violation>
    requires { around.now.most ≤ 2 ^ 26 }
    ensures fault { result ≡ announcement_fault (around_of around.now) facts.now template next }
    ensures fits { IsNone result → Fits (around_of around.now) facts.now next }
{
    if !is_sequenced(around.config.peer_flow) {
        return None;
    }
    let Some(announced) = next else {
        return Some(Violation::MissingNext { template });
    };
    if announced > around.most + 1 {
        return Some(Violation::NumberTooLarge { announced });
    }
    let expected = expected_number(around, facts);
    if announced < expected {
        return Some(Violation::WentBack {
            announced,
            expected,
        });
    }
    None
}

/// The inbox goes on at this number: those that are jumped over.
fn jump(facts: &mut Facts, announced: u64) -> Option<Range>
    ensures facts { facts.new ≡ awaiting facts.old announced }
    ensures skipped { result ≡ jumped_over facts.old.recorded.inbox_next announced }
    ensures count { IfSome result (λ range. range.count ≤ announced) }
{
    let from = facts.recorded.inbox_next;
    facts.recorded.inbox_next = announced;
    if from < announced {
        Some(Range {
            from,
            count: announced - from,
        })
    } else {
        None
    }
}

/// A recoverable flow goes on at this number, and has started.
fn announce_start(facts: &mut Facts, announced: u64)
    requires { (if facts.old.connection.soft then facts.old.connection.receiver.next else receiver_is.expected facts.old.connection.receiver) ≤ announced }
    ensures facts { facts.new ≡ firm (receiving facts.old (receiver_is.announced facts.old.connection.receiver announced)) }
{
    if facts.connection.soft {
        match facts.connection.receiver.announce_soft(announced) {
            Ok(()) | Err(_) => {}
        }
        facts.connection.soft = false;
    } else {
        match facts.connection.receiver.announce(announced) {
            Ok(()) | Err(_) => {}
        }
    }
}

/// Takes an announcement that breaks no rule: the numbers that it jumps over.
pub fn announce(around: &Around<'_>, facts: &mut Facts, next: Option<u64>) -> Option<Range>
    requires most { around.now.most ≤ 2 ^ 26 }
    requires fits { Fits (around_of around.now) facts.old next }
    ensures announced { record { facts = facts.new; skipped = result } ≡ announced (around_of around.now) facts.old next }
    ensures count { IfSome result (λ range. range.count < 2 ^ 32) }
    ensures sent { facts.new.recorded.sent ≡ facts.old.recorded.sent }
{
    let announced = next.unwrap_or(0);
    if is_recoverable(around.config.peer_flow) {
        announce_start(facts, announced);
        None
    } else if is_idempotent(around.config.peer_flow) {
        jump(facts, announced)
    } else {
        None
    }
}

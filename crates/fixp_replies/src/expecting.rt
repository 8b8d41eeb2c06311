//! The number that an end tells to expect of its peer's flow, and what it makes of the one that it is told.

ghost use Rattle.std.specs.Prelude.{◌≡◌, ◌<◌, ◌≤◌, ◌^◌, ◌∷◌, []};
ghost use Rattle.fixp_replies.specs.Facts.{around_of};
ghost use Rattle.fixp_replies.specs.Expecting.{is_newer, is_present, number_in, told_next, answers_next, takes, returned, told_return, softens, softened};
ghost use Rattle.fixp_replies.specs.Outgoing.{messages_of, place_limit};

use crate::facts::{Around, Facts};
use crate::reply::Outgoing;
use fixp_msgs::Expected;
use fixp_shake::{EndConfig, is_recoverable};

/// Whether an end has version 1 of the session schema.
fn is_newer(config: &EndConfig) -> bool
    ensures { result ≡ is_newer config.now }
{
    1 <= config.version
}

/// Whether a message has a word on the number that is expected.
fn is_present(expected: Expected) -> bool
    ensures { result ≡ is_present expected }
{
    !matches!(expected, Expected::Absent)
}

/// What an end tells of the number that it expects.
pub fn told_next(around: &Around<'_>, facts: &Facts) -> Expected
    ensures { result ≡ told_next (around_of around.now) facts.now }
{
    if !is_newer(around.config) {
        Expected::Absent
    } else if is_recoverable(around.config.peer_flow) {
        Expected::Number(facts.recorded.inbox_next)
    } else {
        Expected::Null
    }
}

/// The answer to what the peer told.
pub fn answers_next(around: &Around<'_>, expected: Expected, facts: &Facts) -> Expected
    ensures { result ≡ answers_next (around_of around.now) expected facts.now }
{
    if is_present(expected) {
        told_next(around, facts)
    } else {
        Expected::Absent
    }
}

/// Whether the number that the peer expects is taken.
fn takes(around: &Around<'_>, facts: &Facts, expected: Expected) -> bool
    requires { facts.now.recorded.sent < 2 ^ 40 }
    ensures { result ≡ takes (around_of around.now) facts.now expected }
{
    match expected {
        Expected::Absent | Expected::Null => false,
        Expected::Number(number) => {
            is_newer(around.config)
                && is_recoverable(around.config.own_flow)
                && 1 <= number
                && number <= facts.recorded.sent + 1
        }
    }
}

/// The number in it, where there is one.
fn number_in(expected: Expected) -> u64
    ensures { result ≡ number_in expected }
{
    match expected {
        Expected::Absent | Expected::Null => 0,
        Expected::Number(number) => number,
    }
}

/// What was sent ends before the number that the peer expects, where this is taken: the Sequence that tells that the end starts
/// there, where this is not the number that it announced.
pub fn take_expected(around: &Around<'_>, facts: &mut Facts, expected: Expected) -> Option<Outgoing>
    requires { facts.old.recorded.sent < 2 ^ 40 }
    ensures returned { facts.new ≡ returned (around_of around.now) facts.old expected }
    ensures told { messages_of around.now.config.now (result ∷ []) ≡ told_return (around_of around.now) facts.old expected }
    ensures small { place_limit around.now.config.now result ≤ 64 }
    ensures sent { facts.new.recorded.sent ≤ facts.old.recorded.sent }
{
    if !takes(around, facts, expected) {
        return None;
    }
    let next = number_in(expected);
    let is_announced = next == facts.recorded.sent + 1;
    facts.recorded.sent = next - 1;
    if is_announced {
        None
    } else {
        Some(Outgoing::Sequence { next })
    }
}

/// The connection is soft from then on, where the peer told a number or null.
pub fn soften(around: &Around<'_>, facts: &mut Facts, expected: Expected)
    ensures { facts.new ≡ softened (around_of around.now) expected facts.old }
{
    facts.connection.soft = is_newer(around.config)
        && is_present(expected)
        && is_recoverable(around.config.peer_flow);
}

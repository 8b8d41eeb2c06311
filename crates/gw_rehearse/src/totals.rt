//! What a script comes to, in numbers.

ghost use Rattle.std.specs.Prelude.{◌≡◌, ◌≤◌, IfSome, IsTrue};
ghost use Rattle.gw_rehearse.specs.Summaries.{HasReported};
ghost use Rattle.gw_rehearse.specs.Totals.{AreRecoverable, HasAll, HaveAll, all_reports, sum_of};

use crate::journals::{Journals, Log};
use crate::reports::has_reported;
use cmd_config::Link;
use cmd_script::{Load, Script};
use fixp_msgs::Flow;
use jr_kept::Inbox;

/// The rounds behind the last step: so many, and so many for each message.
const ROUNDS: u64 = 64;

const ROUNDS_EACH: u64 = 16;

/// How many messages all senders send; none where 64 bits do not hold it.
fn total(messages: &[u64]) -> Option<u64>
    ensures { IfSome result (λ n. n ≡ sum_of messages.now) }
{
    let mut sum = 0u64;
    for count in messages {
        sum = sum.checked_add(*count)?;
    }
    Some(sum)
}

/// How many reports all desks have on so many messages; none where 64 bits do not hold it.
fn all_reports(messages: u64, desks: u8) -> Option<u64>
    ensures { IfSome result (λ n. n ≡ all_reports messages desks) }
{
    if desks == 0 {
        return Some(0);
    }
    messages.checked_mul(2)
}

/// How many messages and reports there are to send; none where 64 bits do not hold it.
fn all_of(load: &Load) -> Option<u64> {
    let messages = total(load.messages.as_slice())?;
    let reports = all_reports(messages, load.desks)?;
    messages.checked_add(reports)
}

/// How many rounds may run behind the last step: 64, and 16 for each message, reports among them.
pub(crate) fn rounds_behind(load: &Load) -> u64 {
    match all_of(load) {
        Some(all) => ROUNDS.saturating_add(all.saturating_mul(ROUNDS_EACH)),
        None => u64::MAX,
    }
}

/// Whether so many messages were applied, and no number was passed over.
fn has_all(inbox: &Inbox<Log>, messages: u64) -> bool
    ensures { IsTrue result → HasAll inbox.now messages }
{
    inbox.count() == messages && inbox.next().saturating_sub(1) == messages
}

/// Whether each inbox has all that a load comes to.
fn have_all(load: &Load, initiator: &Journals, acceptor: &Journals) -> bool
    ensures { IsTrue result → HaveAll load.now initiator.now acceptor.now }
{
    let Some(messages) = total(load.messages.as_slice()) else {
        return false;
    };
    let Some(reports) = all_reports(messages, load.desks) else {
        return false;
    };
    has_all(&acceptor.inbox, messages) && has_all(&initiator.inbox, reports)
}

/// Whether both flows are recoverable.
fn are_recoverable(link: &Link) -> bool
    ensures { AreRecoverable link.now → IsTrue result }
{
    matches!(
        (link.client_flow, link.server_flow),
        (Flow::Recoverable, Flow::Recoverable)
    )
}

/// Whether each desk has reported on its share of what the acceptor applied, and each inbox has all that the script comes to, where both
/// flows are recoverable.
pub(crate) fn has_come(script: &Script, initiator: &Journals, acceptor: &Journals) -> bool
    requires few { script.now.load.desks ≤ 16 }
    ensures reported { IsTrue result → HasReported script.now.load acceptor.now }
    ensures all { IsTrue result → AreRecoverable script.now.link → HaveAll script.now.load initiator.now acceptor.now }
{
    if !has_reported(&script.load, acceptor) {
        return false;
    }
    if !are_recoverable(&script.link) {
        return true;
    }
    have_all(&script.load, initiator, acceptor)
}

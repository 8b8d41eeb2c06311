//! What desks have reported, in numbers.

ghost use Rattle.std.specs.Prelude.{◌≡◌, ◌<◌, ◌≤◌, ◌*◌, IfSome, IsTrue};
ghost use Rattle.jr_kept.specs.Outbox.{mine_of};
ghost use Rattle.gw_rehearse.specs.Summaries.{HasReported, share_of};

use crate::journals::{Journals, Log};
use cmd_script::Load;
use jr_kept::Outbox;

/// How many of so many messages fall to a desk, where they are dealt out to so many desks in turn; none where 64 bits do not hold it.
fn share_of(messages: u64, desks: u64, desk: u64) -> Option<u64>
    requires some { 0 < desks }
    ensures { IfSome result (λ n. n ≡ share_of messages desks desk) }
{
    let rest = if desk <= messages % desks { 1 } else { 0 };
    (messages / desks).checked_add(rest)
}

/// Whether a desk has two reports of each of so many messages.
fn has_twice(outbox: &Outbox<Log>, desk: u16, messages: u64) -> bool
    requires desk { (1 ≤ desk) × (desk ≤ 16) }
    ensures { IsTrue result → mine_of outbox.now desk ≡ 2 * messages }
{
    match messages.checked_mul(2) {
        Some(twice) => outbox.mine(desk) == twice,
        None => false,
    }
}

/// Whether the acceptor has the desks of a load, and each has in its outbox two reports of each message of its share of those that were applied there.
pub(crate) fn has_reported(load: &Load, acceptor: &Journals) -> bool
    requires few { load.now.desks ≤ 16 }
    ensures reported { IsTrue result → HasReported load.now acceptor.now }
{
    if acceptor.senders != u16::from(load.desks) {
        return false;
    }
    let desks = u64::from(load.desks);
    let applied = acceptor.inbox.count();
    for place in 0..load.desks {
        let Some(share) = share_of(applied, desks, u64::from(place) + 1) else {
            return false;
        };
        if !has_twice(&acceptor.outbox, u16::from(place) + 1, share) {
            return false;
        }
    }
    true
}

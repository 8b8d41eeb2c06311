//! What the journals of an end hold, in numbers.

ghost use Rattle.std.specs.Prelude.{◌≡◌, ◌≤◌, List, length, IfOk};
ghost use Rattle.session_model.specs.Journal.{History};
ghost use Rattle.session_model.specs.Inbox.{InboxRecord};
ghost use Rattle.jr_kept.specs.Outbox as outboxes;
ghost use Rattle.jr_kept.specs.Inbox as inboxes;
ghost use Rattle.gw_rehearse.specs.Summaries.{IsSummaryOf, counts_to, entries_to, summary_of};

use crate::journals::{Journals, Log};
use cmd_script::Counts;
use jr_kept::Outbox;
use std::alloc::{AllocError, Global};

/// What the journals of an end hold.
#[derive(Drop)]
pub struct EndSummary {
    /// How many entries of each sender stand in the outbox, from sender 1 on.
    pub entries: Counts,
    /// How many of the peer's messages were applied.
    pub delivered: u64,
    /// How many numbers of the peer's were passed over.
    pub skipped: u64,
}

/// How many entries of each of so many senders stand in an outbox.
fn entries_of(alloc: Global, outbox: &Outbox<Log>, senders: u16) -> Result<Counts, AllocError>
    requires few { senders ≤ 16 }
    ensures count { IfOk result (λ counts. length counts ≡ senders) }
    ensures value { IfOk result (λ counts. counts ≡ counts_to outbox.now senders) }
    ensures counts { IfOk result (λ counts. (h : History) → outboxes.StandsFor outbox.now h → counts ≡ entries_to h senders) }
{
    let mut counts = Counts::new(alloc);
    for sender in 0..senders {
        counts.push(outbox.mine(sender + 1))?;
    }
    Ok(counts)
}

impl Journals {
    /// What they hold.
    ///
    /// # Errors
    /// Want of memory.
    pub fn summary(&self, alloc: Global) -> Result<EndSummary, AllocError>
        ensures exact { IfOk result (λ s. (h : History) (i : List InboxRecord) → outboxes.StandsFor self.now.outbox h → inboxes.StandsFor self.now.inbox i → IsSummaryOf h i self.now.senders s) }
        ensures value { IfOk result (λ s. s ≡ summary_of self.now) }
        ensures few { IfOk result (λ s. length s.entries ≤ 16) }
    {
        let entries = entries_of(alloc, &self.outbox, self.senders)?;
        let delivered = self.inbox.count();
        let skipped = self
            .inbox
            .next()
            .saturating_sub(1)
            .saturating_sub(delivered);
        Ok(EndSummary {
            entries,
            delivered,
            skipped,
        })
    }
}

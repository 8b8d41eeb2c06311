//! What an end settled, judged by the plain lists: the records of its inbox, and its peer's entries.

use crate::machines::COUNT;
use crate::machines::side::Settled;
use fixp_end::Flow;
use jr_kept::Stable;

/// When it is judged.
#[derive(Clone, Copy, PartialEq, Eq)]
pub enum Moment {
    /// After a connection that may have been cut.
    Cut,
    /// After the last connection, which was not.
    Last,
}

/// Whether an entry has this message.
fn has_message(entry: &Stable, message: [u8; 8]) -> bool {
    match entry.payload().split_at_checked(2) {
        Some((_, entered)) => entered == &message[..],
        None => false,
    }
}

/// Whether a message is that of the entry of this number.
fn is_entry(entries: &[Stable], wanted: u64, message: [u8; 8]) -> bool {
    for entry in entries {
        if entry.number() == wanted {
            return has_message(entry, message);
        }
    }
    false
}

/// The number of the entry that has this message; 0 where none has.
fn number_of(entries: &[Stable], message: [u8; 8]) -> u64 {
    for entry in entries {
        if has_message(entry, message) {
            return entry.number();
        }
    }
    0
}

/// Whether a record holds a number.
fn holds(record: Settled, wanted: u64) -> bool {
    match record {
        Settled::Applied { number, .. } => number == wanted,
        Settled::Skipped { from, count } => from <= wanted && wanted - from < count,
    }
}

/// How many records hold a number.
fn holders(inbox: &[Settled], wanted: u64) -> u64 {
    let mut count = 0u64;
    for record in inbox {
        if holds(*record, wanted) {
            count = count.saturating_add(1);
        }
    }
    count
}

/// How many numbers the records hold, each counted as often as it is held.
fn held(inbox: &[Settled]) -> u64 {
    let mut count = 0u64;
    for record in inbox {
        count = match *record {
            Settled::Applied { .. } => count.saturating_add(1),
            Settled::Skipped { count: skipped, .. } => count.saturating_add(skipped),
        };
    }
    count
}

/// Of a recoverable flow: the messages applied are the first of the peer's entries, in order, and at last all of them.
fn recoverable(inbox: &[Settled], entries: &[Stable], moment: Moment) -> Option<&'static str> {
    let mut next = 1u64;
    for record in inbox {
        match *record {
            Settled::Applied { number, message }
                if number == next && is_entry(entries, number, message) => {}
            _ => return Some("no beginning of the entries"),
        }
        next = next.saturating_add(1);
    }
    (moment == Moment::Last && next != COUNT + 1).then_some("not all of the entries")
}

/// Of an idempotent flow: each number from 1 to the last that is settled stands in one record, one that is applied has its
/// entry, and at last all numbers are settled.
fn idempotent(inbox: &[Settled], entries: &[Stable], moment: Moment) -> Option<&'static str> {
    let settled = held(inbox);
    for number in 1..=COUNT {
        if holders(inbox, number) != u64::from(number <= settled) {
            return Some("a number that is not settled once");
        }
    }
    for record in inbox {
        if let Settled::Applied { number, message } = *record {
            if !is_entry(entries, number, message) {
                return Some("a message that is not the entry of its number");
            }
        }
    }
    let is_short = moment == Moment::Last && settled < COUNT;
    (is_short || settled > COUNT).then_some("not all numbers and no more")
}

/// Of an unsequenced flow: the messages applied are entries, each behind the one before.
fn unsequenced(inbox: &[Settled], entries: &[Stable]) -> Option<&'static str> {
    let mut last = 0u64;
    for record in inbox {
        let number = match *record {
            Settled::Applied { message, .. } => number_of(entries, message),
            Settled::Skipped { .. } => 0,
        };
        if number <= last {
            return Some("a message that is no later entry");
        }
        last = number;
    }
    None
}

/// What is wrong with what an end settled of a flow of its peer's, if anything is.
pub fn fault(
    flow: Flow,
    inbox: &[Settled],
    entries: &[Stable],
    moment: Moment,
) -> Option<&'static str> {
    match flow {
        Flow::Recoverable => recoverable(inbox, entries, moment),
        Flow::Idempotent => idempotent(inbox, entries, moment),
        Flow::Unsequenced => unsequenced(inbox, entries),
        Flow::None => (!inbox.is_empty()).then_some("something settled on an absent flow"),
    }
}

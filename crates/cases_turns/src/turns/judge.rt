//! What the journals of a session hold, judged by plain lists: the records of an outbox, and those of the peer's inbox.

use crate::turns::session::{EACH, message};
use cases_made::{Disks, records};
use fixp_end::Flow;
use jr_record::Record;
use std::alloc::Global;

/// The records of both journals of an end, opened again.
#[derive(Drop)]
pub struct Journals {
    outbox: Vec<Record>,
    inbox: Vec<Record>,
}

/// The journals on an end's disks; none where one is no journal.
fn opened(alloc: Global, disks: Disks) -> Option<Journals> {
    let Disks { outbox, inbox } = disks;
    Some(Journals {
        outbox: records(alloc, outbox)?,
        inbox: records(alloc, inbox)?,
    })
}

/// The journals on the disks of two ends; none where one is no journal.
pub fn both_opened(alloc: Global, disks: (Disks, Disks)) -> Option<(Journals, Journals)> {
    let (first, second) = disks;
    Some((opened(alloc, first)?, opened(alloc, second)?))
}

/// The payload of the entry at a place of an outbox, from 0 on.
fn entry(outbox: &[Record], place: usize) -> Option<&[u8]> {
    match outbox.get(place) {
        Some(Record::Entry { payload, .. }) => Some(payload.as_slice()),
        _ => None,
    }
}

/// Whether the entry of a number, from 1 on, is this one.
fn is_entry(outbox: &[Record], number: u64, payload: &[u8]) -> bool {
    match entry(outbox, number.saturating_sub(1) as usize) {
        Some(entered) => number > 0 && entered == payload,
        None => false,
    }
}

/// The number of the entry that has this payload; 0 where none has.
fn number_of(outbox: &[Record], payload: &[u8]) -> u64 {
    for number in 1..=outbox.len() as u64 {
        if is_entry(outbox, number, payload) {
            return number;
        }
    }
    0
}

/// What a record of an inbox of this flow settles behind the number `last`, and the last number then; none where it may not come
/// there.
fn settled(flow: Flow, outbox: &[Record], record: &Record, last: u64) -> Option<u64> {
    match record {
        Record::Apply { number, payload } => {
            let payload = payload.as_slice();
            match flow {
                Flow::Recoverable | Flow::Idempotent => {
                    let is_next = *number == last.saturating_add(1);
                    (is_next && is_entry(outbox, *number, payload)).then_some(*number)
                }
                Flow::Unsequenced => {
                    let sent = number_of(outbox, payload);
                    (sent > last).then_some(sent)
                }
                Flow::None => None,
            }
        }
        Record::Skip { from, count } => {
            let is_next = *from == last.saturating_add(1);
            (flow == Flow::Idempotent && is_next).then_some(last.saturating_add(*count))
        }
        Record::Entry { .. } | Record::Finish => None,
        Record::Negotiated | Record::PeerFinished { .. } => Some(last),
    }
}

/// What is wrong with an inbox of this flow whose peer's outbox has so many entries, if anything is: each record settles what may
/// follow, and at last all numbers are settled of a flow that has numbers.
fn inbox_fault(
    flow: Flow,
    outbox: &[Record],
    inbox: &[Record],
    count: u64,
) -> Option<&'static str> {
    let mut last = 0;
    for record in inbox {
        match settled(flow, outbox, record, last) {
            Some(number) => last = number,
            None => return Some("a record that may not come there"),
        }
    }
    let has_numbers = matches!(&flow, Flow::Recoverable | Flow::Idempotent);
    (has_numbers && last != count).then_some("not all numbers")
}

/// Whether a record is the next entry of its sender; counts it.
fn is_next(record: &Record, next: &mut [u8; 5]) -> bool {
    let Record::Entry { sender, k, payload } = record else {
        return false;
    };
    let sender = (*sender).min(4) as u8;
    let place = next[usize::from(sender)];
    next[usize::from(sender)] = place.saturating_add(1);
    *k == u64::from(place) + 1 && payload.as_slice() == &message(sender, place)[..]
}

/// What is wrong with an outbox of so many senders, if anything is: each sender's messages stand in order, all of them, and the
/// mark behind them.
fn outbox_fault(outbox: &[Record], senders: u8) -> Option<&'static str> {
    let mut next = [0; 5];
    let Some((Record::Finish, entries)) = outbox.split_last() else {
        return Some("no mark behind the entries");
    };
    for record in entries {
        if !is_next(record, &mut next) {
            return Some("an entry that is not its sender's next");
        }
    }
    let count = u64::from(senders) * u64::from(EACH);
    (entries.len() as u64 != count).then_some("not all entries")
}

/// What is wrong with what an end's senders have sent by this flow and its peer has settled, if anything is.
pub fn fault(flow: Flow, senders: u8, sender: &Journals, peer: &Journals) -> Option<&'static str> {
    let outbox = sender.outbox.as_slice();
    let count = u64::from(senders) * u64::from(EACH);
    outbox_fault(outbox, senders).or(inbox_fault(flow, outbox, peer.inbox.as_slice(), count))
}

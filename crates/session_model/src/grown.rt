//! The plain inbox: grown event by event, as slowly and simply as the definitions allow.
//! Its contract is the growth of each flow; nothing above runs it.
ghost use Rattle.std.specs.Prelude.{◌≡◌, ℕ, ◌+◌, ◌^◌, ◌≤◌, List, [], ◌∷◌, ◌++◌, None, Some, OnOk, OnErr, IfSome, IsTrue, ◌↔◌, option_map, option_to_list, max, take, vec_len};
ghost use Rattle.session_model.specs.Inbox.{InboxRecord, next_number};
ghost use Rattle.session_model.specs.Growth.{Grown, NeverBack, jump};
ghost use Rattle.session_model.specs.Views.{event_of, events_of, flow_of, range_of, record_of, records_of, first_in, end_of, MayGrow, Takes};

use crate::event::{Event, Flow, Numbered, Range, Record};
use crate::implied::behind;
use std::alloc::{AllocError, Global};

/// An inbox: its records, and the number that it waits for.
#[derive(Drop)]
pub struct Inbox<'a> {
    pub records: Vec<Record<'a>>,
    pub next: u128,
    pub ghost waits: { next ≡ next_number (records_of records.items) },
    pub ghost fits: { next ≤ 2 ^ 64 + vec_len records },
}

impl<'a> Inbox<'a> {
    /// The inbox of a session that was never negotiated: it has no record, and waits for number 1.
    pub fn new(alloc: Global) -> Self
        ensures empty { result.records.items ≡ [] }
    {
        Inbox {
            records: Vec::new(alloc),
            next: 1,
        }
    }

    /// The inbox of a process life that finds these records: it waits for one past the greatest number in them.
    pub fn open(records: Vec<Record<'a>>) -> Self
        requires { next_number (records_of records.items) ≤ 2 ^ 64 + vec_len records }
        ensures same { result.records.items ≡ records.entry.items }
    {
        let mut next = 1;
        for found in &records {
            next = next_behind(*found).max(next);
        }
        Inbox { records, next }
    }

    /// The records alone, as the next life finds them.
    pub fn into_records(self) -> Vec<Record<'a>>
        ensures same { result.items ≡ self.entry.records.items }
        ensures fits { next_number (records_of result.items) ≤ 2 ^ 64 + vec_len result }
    {
        let Inbox { records, next: _ } = self;
        records
    }

    /// Grows over the events of one connection, from its beginning. Where memory runs out, it has grown over the first of them.
    pub fn grow(&mut self, flow: Flow, events: &[Event<'a>]) -> Result<(), AllocError>
        requires { MayGrow flow self.old.next None (events_of events.now) }
        ensures ok { OnOk result (Grown (flow_of flow) None (events_of events.now) (records_of self.old.records.items) (records_of self.new.records.items)) }
        ensures err { OnErr result ((k : ℕ) × Grown (flow_of flow) None (events_of (take k events.now)) (records_of self.old.records.items) (records_of self.new.records.items)) }
    {
        let mut standing = None;
        for event in events {
            if let Some(added) = record_for(flow, self.next, standing, *event) {
                self.push(added)?;
            }
            standing = behind(standing, *event);
        }
        Ok(())
    }

    /// Adds a record that begins with the number that the inbox waits for.
    fn push(&mut self, added: Record<'a>) -> Result<(), AllocError>
        requires begins { first_in added ≡ self.old.next }
        requires fits { end_of added ≤ 2 ^ 64 + (vec_len self.old.records + 1) }
        ensures ok { OnOk result (self.new.records.items ≡ self.old.records.items ++ added.entry ∷ []) }
        ensures err { OnErr result (self.new.records.items ≡ self.old.records.items) }
    {
        self.records.push(added)?;
        self.next = match added {
            Record::Apply(message) => message.number + 1,
            Record::Skip(range) => range.first + range.count,
        };
        Ok(())
    }
}

/// The number that an inbox waits for whose one record is this: one past its last number, or 1 where it has none.
fn next_behind(found: Record<'_>) -> u128
    requires { next_number (record_of found ∷ []) ≤ 2 ^ 65 }
    ensures exact { result ≡ next_number (record_of found.entry ∷ []) }
{
    match found {
        Record::Apply(message) => message.number + 1,
        Record::Skip(range) => {
            if range.count == 0 {
                1
            } else {
                range.first + range.count
            }
        }
    }
}

/// Whether no announcement of one connection lacks a number, or goes back behind the number reached, where the inbox waits
/// for `next` at the connection's beginning.
pub fn never_back(next: u128, events: &[Event<'_>]) -> bool
    ensures exact { IsTrue result ↔ NeverBack next None (events_of events.now) }
{
    let mut standing = None;
    for event in events {
        if !goes_on(next, standing, *event) {
            return false;
        }
        standing = behind(standing, *event);
    }
    true
}

/// The same of one event, where `standing` stood announced before it.
fn goes_on(next: u128, standing: Option<u128>, event: Event<'_>) -> bool
    ensures exact { IsTrue result ↔ NeverBack next standing (event_of event.entry ∷ []) }
{
    match event {
        Event::Announce(_, Some(number)) => standing.unwrap_or(next) <= u128::from(number),
        Event::Announce(_, None) => false,
        Event::Message(_) => true,
    }
}

/// The record that one event adds to an inbox that waits for `next`, where `standing` stood announced before it.
fn record_for<'a>(
    flow: Flow,
    next: u128,
    standing: Option<u128>,
    event: Event<'a>,
) -> Option<Record<'a>>
    requires fits { next ≤ 2 ^ 65 }
    requires forward { MayGrow flow next standing (event_of event ∷ []) }
    ensures grown { (before : List InboxRecord) → next_number before ≡ next → Grown (flow_of flow) standing (event_of event.entry ∷ []) before (before ++ option_to_list (option_map record_of result)) }
    ensures begins { IfSome result (λ r. first_in r ≡ next) }
    ensures ends { IfSome result (λ r. end_of r ≤ max (next + 1) (2 ^ 64)) }
{
    match event {
        Event::Announce(_, number) => match (flow, number) {
            (Flow::Idempotent, Some(number)) => match skipped(next, u128::from(number)) {
                Some(range) => Some(Record::Skip(range)),
                None => None,
            },
            _ => None,
        },
        Event::Message(payload) => {
            if takes(flow, next, standing) {
                Some(Record::Apply(Numbered {
                    number: next,
                    payload,
                }))
            } else {
                None
            }
        }
    }
}

/// Whether a message is applied by an inbox that waits for `next`, where `standing` stands announced.
fn takes(flow: Flow, next: u128, standing: Option<u128>) -> bool
    ensures exact { IsTrue result ↔ Takes flow next standing }
{
    match flow {
        Flow::Recoverable => standing == Some(next),
        Flow::Idempotent => standing.is_some(),
        Flow::Unsequenced => true,
        Flow::NoFlow => false,
    }
}

/// The numbers that an announcement of `number` jumps over, where `next` was waited for.
fn skipped(next: u128, number: u128) -> Option<Range>
    requires { next ≤ number }
    ensures jump { option_to_list (option_map range_of result) ≡ jump next (Some number) }
    ensures begins { IfSome result (λ r. r.first ≡ next) }
    ensures ends { IfSome result (λ r. r.first + r.count ≡ number) }
{
    if next < number {
        Some(Range {
            first: next,
            count: number - next,
        })
    } else {
        None
    }
}

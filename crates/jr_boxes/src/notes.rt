//! Noting the records of an inbox.

ghost use Rattle.std.specs.Prelude.{◌≡◌, ◌↔◌, ℕ, ◌+◌, ◌<◌, ◌≤◌, ◌^◌, List, [], ◌∷◌, ◌++◌, IsTrue, IfOk, OnOk};
ghost use Rattle.jr_record.specs.Records.{IsRecord};
ghost use Rattle.fixp_msgs.specs.declared.flow.Flow.TheVariants as flows;

use fixp_msgs::Flow;
use jr_places::Segments;
use jr_record::Record;
use std::alloc::{AllocError, Global};

/// What an inbox has settled: the next number, whether the session is negotiated, the peer's last number once it finished,
/// and the place of each applied message among the records, from 0 on.
#[derive(Drop)]
pub struct Notes {
    pub next: u64,
    pub negotiated: bool,
    pub peer_last: Option<u64>,
    pub places: Segments,
    ghost from_one: { 1 ≤ next },
}

impl Notes {
    ghost use Rattle.jr_places.specs.Numbers.{numbers_of, HasRoomForOne};
    ghost use Rattle.jr_boxes.specs.Notes.{Becomes, HasNoted, MayFollow, Notices};

    /// Those of no records.
    pub fn new(alloc: Global) -> Notes
        ensures notices { Notices result [] }
    {
        Notes {
            next: 1,
            negotiated: false,
            peer_last: None,
            places: Segments::new(alloc),
        }
    }

    /// Notes the record of a place, where it may stand behind those noted in an inbox of this flow.
    ///
    /// # Errors
    /// Want of memory.
    pub fn note(&mut self, flow: Flow, at: u64, r: &Record) -> Result<bool, AllocError>
        requires legal { IsRecord r.now }
        ensures fits { IfOk result (λ fits. IsTrue fits ↔ MayFollow flow self.old r.now) }
        ensures noted { IfOk result (λ fits. IsTrue fits → HasNoted self.old self.new at r.now) }
    {
        match r {
            Record::Apply { number, .. } => self.note_apply(at, *number),
            Record::Skip { from, count } => Ok(self.note_skip(flow, *from, *count)),
            Record::Negotiated => {
                let fits = !self.negotiated;
                self.negotiated = true;
                Ok(fits)
            }
            Record::PeerFinished { last } => {
                let fits = self.peer_last.is_none();
                self.peer_last = Some(*last);
                Ok(fits)
            }
            Record::Entry { .. } | Record::Finish => Ok(false),
        }
    }

    /// Makes room for one more place; an error changes nothing.
    pub fn reserve(&mut self) -> Result<(), AllocError>
        ensures same { Becomes self.old self.new self.old.next self.old.negotiated self.old.peer_last (numbers_of self.old.places) }
        ensures room { OnOk result (HasRoomForOne self.new.places) }
    {
        self.places.reserve()
    }

    /// Notes a message of a place, for which there is room.
    pub fn push(&mut self, at: u64, number: u64)
        requires room { HasRoomForOne self.old.places }
        requires most { number < 2 ^ 63 }
        ensures noted { Becomes self.old self.new (number + 1) self.old.negotiated self.old.peer_last (numbers_of self.old.places ++ at ∷ []) }
    {
        self.places.push_reserved(at);
        self.next = number + 1;
    }

    /// Notes a message, where its number is the next one and below 2^64 - 1.
    fn note_apply(&mut self, at: u64, number: u64) -> Result<bool, AllocError>
        ensures fits { IfOk result (λ fits. IsTrue fits ↔ ((number ≡ self.old.next) × (number + 1 < 2 ^ 64))) }
        ensures noted { IfOk result (λ fits. IsTrue fits → Becomes self.old self.new (number + 1) self.old.negotiated self.old.peer_last (numbers_of self.old.places ++ at ∷ [])) }
    {
        if number != self.next || number == u64::MAX {
            return Ok(false);
        }
        self.places.push(at)?;
        self.next = number + 1;
        Ok(true)
    }

    /// Notes a jump, where the flow may jump, and it begins at the next number and ends below 2^64 - 1.
    fn note_skip(&mut self, flow: Flow, from: u64, count: u64) -> bool
        requires some { 1 ≤ count }
        ensures fits { IsTrue result ↔ ((flow ≡ flows.Idempotent) × (from ≡ self.old.next) × (1 ≤ count) × (from + count < 2 ^ 64)) }
        ensures noted { IsTrue result → Becomes self.old self.new (from + count) self.old.negotiated self.old.peer_last (numbers_of self.old.places) }
    {
        if !matches!(flow, Flow::Idempotent) || from != self.next || count > u64::MAX - from {
            return false;
        }
        self.next = from + count;
        true
    }
}

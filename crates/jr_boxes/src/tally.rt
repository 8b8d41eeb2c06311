//! Counting the records of an outbox.

ghost use Rattle.std.specs.Prelude.{◌≡◌, ◌↔◌, ℕ, ◌+◌, ◌-◌, ◌<◌, ◌≤◌, ◌^◌, false, List, [], IsTrue};
ghost use Rattle.session_model.specs.Journal.{Entry, History};
ghost use Rattle.jr_record.specs.Records.{IsRecord, IsSender};
ghost use Rattle.jr_boxes.specs.Tallies.{count_in, CountsEntry, HasTaken, IsWithin, MayFollow, Tallies};

use fixp_msgs::is_application;
use jr_record::Record;

/// How many entries an outbox has, all and of each sender from 1 to 16, and whether its Finish stands.
#[derive(Clone, Copy)]
pub struct Tally {
    pub entries: u64,
    pub counts: [u64; 16],
    pub closed: bool,
}

impl Tally {
    /// That of no records.
    pub fn new() -> Tally
        ensures counts { Tallies result (record { made = []; finished = false }) }
        ensures within { IsWithin result 0 }
    {
        Tally {
            entries: 0,
            counts: [0; 16],
            closed: false,
        }
    }

    /// How many entries a sender has.
    pub fn of(&self, sender: u16) -> u64
        requires sender { IsSender sender }
        ensures value { result ≡ count_in self.now sender }
    {
        self.counts[sender as usize - 1]
    }

    /// Counts an entry of a sender.
    pub fn count(&mut self, sender: u16)
        requires sender { IsSender sender }
        requires room { IsWithin self.old (2 ^ 40 - 1) }
        ensures counted { CountsEntry self.old self.new sender }
        ensures within { (n : ℕ) → IsWithin self.old n → IsWithin self.new (n + 1) }
    {
        self.entries += 1;
        self.counts[sender as usize - 1] += 1;
    }

    /// Counts a record, where it may stand behind those counted.
    pub fn take(&mut self, r: &Record) -> bool
        requires legal { IsRecord r.now }
        requires room { IsWithin self.old (2 ^ 40 - 1) }
        ensures fits { IsTrue result ↔ MayFollow self.old r.now }
        ensures taken { IsTrue result → HasTaken self.old self.new r.now }
        ensures within { (n : ℕ) → IsWithin self.old n → IsWithin self.new (n + 1) }
    {
        match r {
            Record::Entry { sender, k, payload } => {
                let fits = !self.closed
                    && *k == self.of(*sender) + 1
                    && is_application(payload.as_slice());
                if fits {
                    self.count(*sender);
                }
                fits
            }
            Record::Finish => {
                let fits = !self.closed;
                self.closed = true;
                fits
            }
            Record::Apply { .. }
            | Record::Skip { .. }
            | Record::Negotiated
            | Record::PeerFinished { .. } => false,
        }
    }
}

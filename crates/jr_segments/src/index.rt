//! What is kept in memory of a journal's records: where each one stands, and their greatest moment.

ghost use Rattle.std.specs.Prelude.{◌≡◌, max, [], ◌∷◌, ◌++◌, OnOk};
ghost use Rattle.jr_places.specs.Numbers.{numbers_of};

use jr_places::Segments;
use std::alloc::{AllocError, Global};

/// Where the gate of each record stands, in bytes from the journal's beginning, and the greatest moment of the records.
#[derive(Drop)]
pub struct Index {
    pub places: Segments,
    pub moment: u64,
}

impl Index {
    /// That of no records.
    pub fn new(alloc: Global) -> Index
        ensures places { numbers_of result.places ≡ [] }
        ensures moment { result.moment ≡ 0 }
    {
        Index {
            places: Segments::new(alloc),
            moment: 0,
        }
    }

    /// Notes a record.
    pub fn note(&mut self, place: u64, moment: u64) -> Result<(), AllocError>
        ensures places { OnOk result (numbers_of self.new.places ≡ numbers_of self.old.places ++ place ∷ []) }
        ensures moment { OnOk result (self.new.moment ≡ max self.old.moment moment) }
    {
        self.places.push(place)?;
        self.moment = self.moment.max(moment);
        Ok(())
    }
}

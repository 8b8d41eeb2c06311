//! What was seen of a journal.

ghost use Rattle.std.specs.Prelude.{◌≡◌, ◌+◌, max};
ghost use Rattle.jr_stream.specs.Images.{counted};

/// What was seen of a journal.
#[derive(Clone, Copy)]
pub(crate) struct Seen {
    /// How many records it has.
    pub(crate) count: u64,
    /// The greatest moment of a record, in milliseconds since 1970, or 0.
    pub(crate) latest: u64,
}

impl Seen {
    /// What is seen with one record more, of this moment.
    pub(crate) fn with(self, moment: u64) -> Seen
        ensures count { result.count ≡ counted (self.count + 1) }
        ensures latest { result.latest ≡ max self.latest moment }
    {
        Seen {
            count: self.count.saturating_add(1),
            latest: self.latest.max(moment),
        }
    }
}

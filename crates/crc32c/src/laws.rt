//! The laws of the sum, each on a function without a body.

ghost use Rattle.crc32c.specs.Laws.{PublishedSums, ShortChangesShow};

/// The sums that were published for the check of an implementation.
pub fn published_sums()
    ensures law { PublishedSums }
{}

/// Bytes that differ within at most four neighbouring bytes, and so bytes of which one bit was changed, have different sums.
pub fn short_changes_show()
    ensures law { ShortChangesShow }
{}

//! The laws of records with their sums, each on a function without a body.

ghost use Rattle.jr_summed.specs.Laws.{AtMostOneFound, AtMostOneSummed, ShortChangesShow, SizesAreBounded};

/// Bytes are found to be one thing.
pub fn one_found()
    ensures law { AtMostOneFound }
{}

/// At most one record with its sum stands at the front of given bytes.
pub fn one_summed()
    ensures law { AtMostOneSummed }
{}

/// A record with its sum and its gate takes 18 bytes at least, and 16,414 at most.
pub fn summed_bounds()
    ensures law { SizesAreBounded }
{}

/// Where at most four neighbouring bytes of a record were changed, and a record of its length stands there, that is found `Changed`.
pub fn short_changes_show()
    ensures law { ShortChangesShow }
{}

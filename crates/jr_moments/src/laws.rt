//! The laws of dated records, each on a function without a body.

ghost use Rattle.jr_moments.specs.Laws.{AtMostOneDated, SizesAreBounded};

/// At most one dated record is spelled at the front of given bytes.
pub fn one_dated()
    ensures { AtMostOneDated }
{}

/// A dated record with its gate takes 14 bytes at least, and 16,410 at most, and no moment changes them.
pub fn dated_bounds()
    ensures { SizesAreBounded }
{}

//! The laws of records and of the images that hold them, each on a function without a body.

ghost use Rattle.jr_record.specs.Laws.{AtMostOneRecord, AtMostOneVerdict, SizesAreBounded};

/// At most one record is spelled at the front of given bytes.
pub fn one_record()
    ensures { AtMostOneRecord }
{}

/// A record with its gate takes 6 bytes at least, and 16,402 at most.
pub fn record_bounds()
    ensures { SizesAreBounded }
{}

/// An image holds at most one list of records, or is damaged at one place, or is not formatted.
pub fn one_verdict()
    ensures { AtMostOneVerdict }
{}

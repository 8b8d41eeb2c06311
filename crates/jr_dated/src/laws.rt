//! The laws of dated records and of the images that hold them, each on a function without a body.

ghost use Rattle.jr_dated.specs.Laws.{AtMostOneDated, AtMostOneVerdict, AtMostOneFormat, SizesAreBounded};

/// At most one dated record is spelled at the front of given bytes.
pub fn one_dated()
    ensures { AtMostOneDated }
{}

/// A dated record with its gate takes 14 bytes at least, and 16,410 at most, and no moment changes them.
pub fn dated_bounds()
    ensures { SizesAreBounded }
{}

/// An image holds at most one list of dated records, or is damaged at one place, or is not formatted.
pub fn one_dated_verdict()
    ensures { AtMostOneVerdict }
{}

/// No image is a journal of both formats.
pub fn one_format()
    ensures { AtMostOneFormat }
{}

//! The laws of titles, each on a function without a body.

ghost use Rattle.jr_title.specs.Laws.{AtMostOneOther, AtMostOneReading, AtMostOneTitle, ReadsBack};

/// The 64 bytes of a title, with anything behind them, are read as that title.
pub fn reads_back()
    ensures law { ReadsBack }
{}

/// Two titles whose bytes are the same are one.
pub fn one_title()
    ensures law { AtMostOneTitle }
{}

/// Bytes are read as one title, or refused for one cause.
pub fn one_reading()
    ensures law { AtMostOneReading }
{}

/// A title has all that is asked for, or differs first in one part.
pub fn one_other()
    ensures law { AtMostOneOther }
{}

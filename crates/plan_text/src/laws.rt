//! A law of the plans of texts, which has an empty body.

ghost use Rattle.plan_text.specs.Laws.{OneReading};

/// A text has the plans of one reading alone, or is refused at one line alone, and not both.
pub fn one_reading()
    ensures law { OneReading }
{}

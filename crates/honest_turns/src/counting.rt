//! Records that a call of the inbox's disk tried, which failed, and which stand all the same.

ghost use Rattle.honest_turns.specs.Counting.{RefusedCounts};

/// A connection whose last turn was cut short is one too with that turn cut short elsewhere, of the same bytes and over the same link: so a next life
/// opens behind it whose inbox has a beginning of what a failed call tried.
pub fn refused_counts()
    ensures law { RefusedCounts }
{}

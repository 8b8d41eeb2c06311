//! What a line that is past says of all plans of its text.

ghost use Rattle.plan_outbox.specs.Behind.{PastExcludes};

/// A text of which a line is past has plans that do not go on.
pub fn past_excludes()
    ensures law { PastExcludes }
{}

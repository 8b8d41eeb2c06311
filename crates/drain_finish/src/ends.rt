//! How connections of two ends end.

ghost use Rattle.drain_finish.specs.Finishing.{EndsFinished};

/// Over a link that stands, where no end is found late, a connection of two ends ends with both finishes exchanged alone.
pub fn ends_finished()
    ensures law { EndsFinished }
{}

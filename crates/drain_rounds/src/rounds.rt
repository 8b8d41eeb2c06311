//! What rounds make of all that two ends have still to do.

ghost use Rattle.drain_rounds.specs.Rounds.{RoundsFall, DrainEnds, DrainSuffices};

/// Each round of a drain in time lowers what is left by 2 at least, until the connections of both have ended.
pub fn rounds_fall()
    ensures law { RoundsFall }
{}

/// So half as many rounds as is left at its beginning end both.
pub fn drain_ends()
    ensures law { DrainEnds }
{}

/// So 64 rounds, and 16 for each entry of both outboxes, end both, whether they begin a connection with the first of them or are on one.
pub fn drain_suffices()
    ensures law { DrainSuffices }
{}

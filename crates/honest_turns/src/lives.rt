//! All connections of a life of each end.

ghost use Rattle.honest_turns.specs.Lives.{TimeIsLinked, LifeHolds};

/// Connections that are linked in time are linked by what went over their links.
pub fn time_is_linked()
    ensures law { TimeIsLinked }
{}

/// Whatever links are lost, no connection of a life of two such ends ends by a violation but silence and a late handshake, and they know no
/// more of each other behind them all.
pub fn life_holds()
    ensures law { LifeHolds }
{}

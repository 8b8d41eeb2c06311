//! What one turn makes of all that two ends have still to do.

ghost use Rattle.drain_turns.specs.Turning.{TurnsFall};

/// A turn of either end, over a link that takes all, lowers what both have still to do wherever something is due, but for the heartbeat that it may write.
pub fn turns_fall()
    ensures law { TurnsFall }
{}

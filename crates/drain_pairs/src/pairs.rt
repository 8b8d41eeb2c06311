//! The moves of a rehearsal.

ghost use Rattle.drain_pairs.specs.Keeping.{BeginsJoined, DrainFinishesBoth, LossLeavesApart, MoreIsSeen, RoundsJoin, StopLeavesApart};

/// Two ends between which no connection stands may begin one at any moment.
pub fn begins_joined()
    ensures law { BeginsJoined }
{}

/// A round of both is one more of their connection.
pub fn rounds_join()
    ensures law { RoundsJoin }
{}

/// What is submitted, and seen, changes nothing else.
pub fn more_is_seen()
    ensures law { MoreIsSeen }
{}

/// Where their connection is lost, over or cut, both may begin another.
pub fn loss_leaves_apart()
    ensures law { LossLeavesApart }
{}

/// Where one of them was stopped, and goes on from its journals, both may begin another.
pub fn stop_leaves_apart()
    ensures law { StopLeavesApart }
{}

/// A connection ends as finished alone, and enough rounds of a drain end it at both.
pub fn drain_finishes_both()
    ensures law { DrainFinishesBoth }
{}

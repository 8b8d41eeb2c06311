//! Rounds of any kind, also those in which nothing is sent but heartbeats.

ghost use Rattle.drain_beats.specs.Beats.{BeatsHold, DrainFollows};

/// Behind any rounds in time with which two ends begin a connection, no more is left than a drain finishes.
pub fn beats_hold()
    ensures law { BeatsHold }
{}

/// So a drain behind them ends both connections.
pub fn drain_follows()
    ensures law { DrainFollows }
{}

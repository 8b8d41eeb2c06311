//! Time on a connection, and a drain.

ghost use Rattle.drain_time.specs.Times.{DrainFinishes, RoundsFinish, StaysInTime};

/// In rounds of a millisecond no end is found late with its handshake, nor behind silence.
pub fn stays_in_time()
    ensures law { StaysInTime }
{}

/// So behind any rounds no more is left than a drain finishes, and one ends both connections.
pub fn drain_finishes()
    ensures law { DrainFinishes }
{}

/// No connection ends in them but as finished.
pub fn rounds_finish()
    ensures law { RoundsFinish }
{}

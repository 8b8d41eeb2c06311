//! Two ends over any lives of both.

ghost use Rattle.honest_turns.specs.Sessions.{SessionHolds, NewLifeAgrees};

/// A next life of an end knows no more of the other than was sent, nor the other of it.
pub fn new_life_agrees()
    ensures law { NewLifeAgrees }
{}

/// Over any connections of two ends and any next lives of either, no connection ends by a violation but silence and a late handshake, and
/// they know no more of each other than was sent.
pub fn session_holds()
    ensures law { SessionHolds }
{}

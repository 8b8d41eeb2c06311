//! What is under way between two ends whose connections both go on.

ghost use Rattle.drain_ends.specs.Standing.{StandingHolds};

/// Of finishes, requests and the handshake there is exactly as much under way as an end waits for.
pub fn standing_holds()
    ensures law { StandingHolds }
{}

//! The handshake of two ends.

ghost use Rattle.drain_opening.specs.Opening.{OpenedStays, OpeningHolds};

/// Where no end is found late, a handshake takes four messages at most, one behind another, and each end knows the other's interval behind it.
pub fn opening_holds()
    ensures law { OpeningHolds }
{}

/// A handshake that is done stays done.
pub fn opened_stays()
    ensures law { OpenedStays }
{}

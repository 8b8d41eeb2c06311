//! What a frame that is not accepted does to a connection.

ghost use Rattle.two_ends.specs.Refusing.{RefusalEnds, ClosingIsDeaf, NothingMore};

/// A frame with an event that is not accepted is a rejected announcement of the handshake, or the connection ends, or it is in Closing.
pub fn refusal_ends()
    ensures law { RefusalEnds }
{}

/// In Closing no frame is accepted.
pub fn closing_is_deaf()
    ensures law { ClosingIsDeaf }
{}

/// Once a connection has ended, or is in Closing, nothing more is accepted on it, whatever calls come.
pub fn nothing_more()
    ensures law { NothingMore }
{}

//! What two ends know of the session's negotiation.

ghost use Rattle.drain_ends.specs.Agreeing.{AgreedHolds};

/// An initiator knows that the session is negotiated only where its acceptor does, and no Establish between them is rejected.
pub fn agreed_holds()
    ensures law { AgreedHolds }
{}

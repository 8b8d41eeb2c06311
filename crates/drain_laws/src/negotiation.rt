//! What a reply makes of what an end knows of the session's negotiation.

ghost use Rattle.drain_laws.specs.Negotiating.{RepliesNegotiate};

/// An initiator knows that the session is negotiated where its acceptor has told it so, which tells it only where it knows it.
pub fn replies_negotiate()
    ensures law { RepliesNegotiate }
{}

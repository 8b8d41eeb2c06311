//! The premises of the laws, met by two ends.

ghost use Rattle.honest_turns.specs.Samples.{UnwrittenAgree, HandshakeSample, RestSample};

/// Two ends without a record in their journals know nothing of each other.
pub fn unwritten_agree()
    ensures law { UnwrittenAgree }
{}

/// Two ends that shake hands over one link, turn by turn, are linked in time, and know no more of each other than was sent.
pub fn handshake_sample()
    ensures law { HandshakeSample }
{}

/// The two ends of that handshake are at rest behind it, quiet over outboxes without entries, and a next life of the initiator opens there.
pub fn rest_sample()
    ensures law { RestSample }
{}

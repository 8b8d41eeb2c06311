//! The premises of the laws, met by two ends.

ghost use Rattle.two_ends.specs.GoingOnSamples.{GoingOnSample};
ghost use Rattle.two_ends.specs.Samples.{HandshakeSample, PortSample};
ghost use Rattle.two_ends.specs.LoopSamples.{TurnsSample};

/// Two ends that shake hands over one link meet all premises, and each accepts the other's announcement.
pub fn handshake_sample()
    ensures law { HandshakeSample }
{}

/// Two ends that shake hands over one link, turn by turn, meet all premises, and each accepts the other's announcement.
pub fn turns_sample()
    ensures law { TurnsSample }
{}

/// Two ends meet all premises where three strangers came to the acceptor before its peer: one who said nothing, one who gave half a frame, and one
/// whose credentials lacked their last byte.
pub fn port_sample()
    ensures law { PortSample }
{}

/// An inbox of each kind of flow goes on from one message.
pub fn going_on_sample()
    ensures law { GoingOnSample }
{}

//! What is under way brings each reader to what its writer sent.

ghost use Rattle.honest_ends.specs.NumberLaws.{NumberedHolds, NumbersHold};
ghost use Rattle.honest_ends.specs.NumberSamples.{KnownSample, NumbersSample};

/// Two ends of one session, whose journals know no more of each other than was sent, end a connection by no violation of numbers or of
/// a retransmission.
pub fn numbers_hold()
    ensures law { NumbersHold }
{}

/// At each moment a reader awaits what is under way to it, exactly once a number was announced on the connection, and its requests and
/// their answers agree.
pub fn numbered_holds()
    ensures law { NumberedHolds }
{}

/// The two ends of a whole session know no more of each other than was sent, at its beginning.
pub fn known_sample()
    ensures law { KnownSample }
{}

/// What an acknowledgement with entries behind it, a retransmission behind a live entry, a cut in the midst of one, a heartbeat and the
/// messages of an unsequenced flow bring a reader to.
pub fn numbers_sample()
    ensures law { NumbersSample }
{}

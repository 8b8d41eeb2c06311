//! Nothing comes behind a finish.

ghost use Rattle.honest_ends.specs.FinishLaws.{FinishedHolds, FinishesHold, OnlyTimeEnds, StaysKnown};

/// Two ends of one session, whose journals know no more of each other than was sent, end a connection by no violation behind a finish.
pub fn finishes_hold()
    ensures law { FinishesHold }
{}

/// At each moment, where a finish is known to its reader or under way, its writer has sent all of its entries, and no message of the
/// outbox comes behind it, but in a retransmission.
pub fn finished_holds()
    ensures law { FinishedHolds }
{}

/// Where such ends end a connection by a violation, one of them heard nothing for too long, or the handshake took too long.
pub fn only_time_ends()
    ensures law { OnlyTimeEnds }
{}

/// What both have recorded, whatever steps came, is what the laws ask of a beginning: so they hold of the ends' next lives too.
pub fn stays_known()
    ensures law { StaysKnown }
{}

//! What went over the links of two ends, and what these hold of each other.

ghost use Rattle.two_ends.specs.LoopLaws.{SentAreWhole, LoopsAreEnds, LoopsAreASession, LoopsHold, LoopsGoOn};

/// The frames that are said to be taken whole are those whose bytes the link took.
pub fn sent_are_whole()
    ensures law { SentAreWhole }
{}

/// Two ends that run the loop, linked by what went over their links, are two ends of the machine.
pub fn loops_are_ends()
    ensures law { LoopsAreEnds }
{}

/// Two ends that run the loop, linked by what went over their links, are a session of the session model.
pub fn loops_are_a_session()
    ensures law { LoopsAreASession }
{}

/// Each inbox holds of the other's outbox what the session guarantee says, by the kind of that end's flow.
pub fn loops_hold()
    ensures law { LoopsHold }
{}

/// Where their journals held something at first, each inbox comes to hold of the other's outbox, behind what it held, what goes on from that.
pub fn loops_go_on()
    ensures law { LoopsGoOn }
{}

//! Two ends over their lives, whose connections are linked by the bytes that went over them.

ghost use Rattle.two_ends.specs.Meeting.{LinksHold, SessionOfEnds, EndsHold, EndsGoOn, HoldingGoesOn};

/// Connections that are linked by their bytes are linked in the session model's words.
pub fn links_hold()
    ensures law { LinksHold }
{}

/// Two ends whose lives are those of the machine, chained, with linked bytes, are a session of the session model.
pub fn session_of_ends()
    ensures law { SessionOfEnds }
{}

/// In such a session each inbox holds of the other end's outbox what the session guarantee says, by the kind of that end's flow.
pub fn ends_hold()
    ensures law { EndsHold }
{}

/// Two such ends whose journals held something at first: each inbox comes to hold of the other end's outbox, behind what it held, what goes on from that.
pub fn ends_go_on()
    ensures law { EndsGoOn }
    ensures holding { HoldingGoesOn }
{}

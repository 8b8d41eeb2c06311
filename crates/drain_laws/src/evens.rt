//! What a reply, and any other call, makes of the messages that are waited for.

ghost use Rattle.drain_laws.specs.Evens.{RepliesEven, FillsStay, CallsEven};

/// A reply with which a connection goes on loses none of what is counted and doubles none.
pub fn replies_even()
    ensures law { RepliesEven }
{}

/// What is asked for begins where the inbox waits, and what comes of it is never past that, behind each reply.
pub fn fills_stay()
    ensures law { FillsStay }
{}

/// Nor does any other call behind which it goes on.
pub fn calls_even()
    ensures law { CallsEven }
{}

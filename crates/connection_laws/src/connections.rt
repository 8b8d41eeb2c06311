//! Connections that stand, in the words of the session model.

ghost use Rattle.connection_laws.specs.Connections.{ConnectionKept, RefusedKept, RefusedHeldKept, TailKept, ConnectionServes, WritingGoesOn, PartIsWritten};
ghost use Rattle.connection_laws.specs.Living.{LifeServes, LifeRefused, LifeRefusedHeld, LifeRefusedTail};

/// A connection that stands is one that a life may have served, whatever of its frames the link took.
pub fn connection_kept()
    ensures law { ConnectionKept }
{}

/// A connection at which the append of a record failed is one that a life may have served: the record's frame is accepted, and not
/// processed for sure.
pub fn refused_kept()
    ensures law { RefusedKept }
{}

/// So is one at which the append of the record of a held message failed: all frames were processed.
pub fn refused_held_kept()
    ensures law { RefusedHeldKept }
{}

/// So is one at which a call of the disk failed that was to make several records stable: what the end had heard of them is accepted,
/// and what it had heard before is processed for sure.
pub fn tail_kept()
    ensures law { TailKept }
{}

/// Whatever calls come on a connection from its beginning on, where each may come, a life may have served it.
pub fn connection_serves()
    ensures law { ConnectionServes }
{}

/// What earlier connections of a life wrote, and then one that stands, is what a life may write.
pub fn writing_goes_on()
    ensures law { WritingGoesOn }
{}

/// What was written among the entries sent is what a life may write.
pub fn part_is_written()
    ensures law { PartIsWritten }
{}

/// Over any connections, and any calls on each, a life keeps on its connections what the session model asks of it.
pub fn life_serves()
    ensures law { LifeServes }
{}

/// A life on whose last connection the append of a record failed keeps on its connections what the session model asks of it.
pub fn life_refused()
    ensures law { LifeRefused }
{}

/// And so does one on whose last connection the append of the record of a held message failed.
pub fn life_refused_held()
    ensures law { LifeRefusedHeld }
{}

/// And so does one on whose last connection a call of the disk failed that was to make several records stable.
pub fn life_refused_tail()
    ensures law { LifeRefusedTail }
{}

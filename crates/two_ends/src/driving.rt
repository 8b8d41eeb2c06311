//! An end over its lives, turn by turn, and two such ends.

ghost use Rattle.two_ends.specs.DrivingLaws.{LegBegins, TurnGoesOn, LegEnds, CutEnds, TurnCarries, BytesMove, LifeEnds, LifeFails, StoriesHold};

/// Behind connections that are over the next one begins.
pub fn leg_begins()
    ensures law { LegBegins }
{}

/// A connection goes on by a turn that sent of the outbox what it had seen.
pub fn turn_goes_on()
    ensures law { TurnGoesOn }
{}

/// A connection that goes on may be over wherever it stands.
pub fn leg_ends()
    ensures law { LegEnds }
{}

/// A connection that is given up is over.
pub fn cut_ends()
    ensures law { CutEnds }
{}

/// A turn carries what it received and sent.
pub fn turn_carries()
    ensures law { TurnCarries }
{}

/// What one end was given is under way to it no longer, and what it sent is under way to the other.
pub fn bytes_move()
    ensures law { BytesMove }
{}

/// A life may be over between two connections.
pub fn life_ends()
    ensures law { LifeEnds }
{}

/// A life is over where a turn is cut short.
pub fn life_fails()
    ensures law { LifeFails }
{}

/// Each inbox holds of the other's outbox what the session guarantee says, over any number of lives of both.
pub fn stories_hold()
    ensures law { StoriesHold }
{}

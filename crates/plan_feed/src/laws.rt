//! Laws of what lines say, which have empty bodies.

ghost use Rattle.plan_feed.specs.Laws.{GiversAreShort, WrongGivesNothing};

/// A line of which something is wrong gives no payload to a sender.
pub fn wrong_gives_nothing()
    ensures law { WrongGivesNothing }
{}

/// A line that gives a payload to a sender is no longer than a reader of lines keeps.
pub fn givers_are_short()
    ensures law { GiversAreShort }
{}

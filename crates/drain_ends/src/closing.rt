//! Two ends of which one ends its connection.

ghost use Rattle.drain_ends.specs.Closing.{EndsAreTold, ClosingToDo};

/// While the link stands, an end's Terminate is under way where it has ended or closes its connection, or the other has ended too.
pub fn ends_are_told()
    ensures law { EndsAreTold }
{}

/// So the other has that to read, or heartbeats stand before it.
pub fn closing_to_do()
    ensures law { ClosingToDo }
{}

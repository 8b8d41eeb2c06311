//! That one of two ends has something to do.

ghost use Rattle.drain_ends.specs.Acting.{SomethingToDo};

/// While both connections go on, one end has something to do, or heartbeats stand before it.
pub fn something_to_do()
    ensures law { SomethingToDo }
{}

//! That an end tells its peer where it ends a connection.

ghost use Rattle.drain_ends.specs.Shutting.{RepliesShut, CallsShut};

/// A reply that ends a connection writes a Terminate, but at a handshake that is rejected for good; and a Terminate ends it.
pub fn replies_shut()
    ensures law { RepliesShut }
{}

/// Any other call that ends or closes a connection writes a Terminate, but for the link's end.
pub fn calls_shut()
    ensures law { CallsShut }
{}

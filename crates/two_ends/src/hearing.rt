//! What an end accepts of the bytes that the other wrote.

ghost use Rattle.two_ends.specs.Hearing.{LinkedBytes};

/// Over any calls of a connection whose frames came from bytes that begin what the peer wrote, what is accepted is taken from it.
pub fn linked_bytes()
    ensures law { LinkedBytes }
{}

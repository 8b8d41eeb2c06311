//! What one reply writes of the own flow and hears of the peer's, and what is written as frames.

ghost use Rattle.connection_laws.specs.Framed.{PiecesAreFrames};
ghost use Rattle.connection_laws.specs.Writing.{FrameWrites, FrameHears};

/// A reply writes of the own flow nothing, the handshake's announcement of the next number, or that of a range that it serves.
pub fn frame_writes()
    ensures law { FrameWrites }
{}

/// Before the handshake is done nothing is heard of the peer's flow but its announcement, which ends the handshake.
pub fn frame_hears()
    ensures law { FrameHears }
{}

/// What an end writes are frames, whose events are those that it is said to write.
pub fn pieces_are_frames()
    ensures law { PiecesAreFrames }
{}

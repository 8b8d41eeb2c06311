//! What a frame makes of the inbox, and what is told of the numbers that are skipped.

ghost use Rattle.fixp_machine.specs.Accepting.{AcceptedFrameGrows, RefusedFrameSpares, HoldsWhatCame, HeldGrows, FrameTells, BeginsAgreeing, OwnKeepsAgreeing};

/// A frame that is accepted grows the inbox by the records of its act, as the session model has it of the peer's flow.
pub fn accepted_frame_grows()
    ensures law { AcceptedFrameGrows }
{}

/// A frame that is not accepted adds nothing to the inbox, and leaves facts that agree with it.
pub fn refused_frame_spares()
    ensures law { RefusedFrameSpares }
{}

/// A message that is held came in this frame, under this number.
pub fn holds_what_came()
    ensures law { HoldsWhatCame }
{}

/// A held message that is applied, and came earlier on the connection, grows the inbox as the session model has it of a recoverable
/// flow.
pub fn held_grows()
    ensures law { HeldGrows }
{}

/// A frame is answered by one NotApplied for each range that it skips, and by no other.
pub fn frame_tells()
    ensures law { FrameTells }
{}

/// A connection begins, in either role, with facts that agree with its inbox, and nothing announced.
pub fn begins_agreeing()
    ensures law { BeginsAgreeing }
{}

/// What an end does of its own between frames leaves facts that agree with the same inbox.
pub fn own_keeps_agreeing()
    ensures law { OwnKeepsAgreeing }
{}

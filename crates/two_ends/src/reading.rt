//! What the bytes that one end wrote are to the end that reads them.

ghost use Rattle.two_ends.specs.Reading.{WrittenIsRead, AllIsRead, EventIsCarried};

/// Bytes that begin what was written as legal frames are the frames of the first of these, and to their reader they are what was written.
pub fn written_is_read()
    ensures law { WrittenIsRead }
{}

/// All of what was written as legal frames is read as all of these frames.
pub fn all_is_read()
    ensures law { AllIsRead }
{}

/// What a frame is to its reader has the event that its writer gave it.
pub fn event_is_carried()
    ensures law { EventIsCarried }
{}

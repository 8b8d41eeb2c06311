//! What a frame that is read makes of the measure, by the reply table alone.

ghost use Rattle.drain_laws.specs.Frames.{FramesFall};

/// Each frame that an end reads from one that keeps to the rules lowers the measure, what it writes in reply among it.
pub fn frames_fall()
    ensures law { FramesFall }
{}

//! That what two ends have still to do falls with each of their steps.

ghost use Rattle.drain_ends.specs.Falling.{MeetsFall, StepsFall};

/// While both connections go on, each message that is read lowers the measure, and no other call raises it but a heartbeat.
pub fn steps_fall()
    ensures law { StepsFall }
{}

/// A connection that begins lowers it too.
pub fn meets_fall()
    ensures law { MeetsFall }
{}

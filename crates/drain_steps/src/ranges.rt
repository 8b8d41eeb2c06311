//! What an end sends again.

ghost use Rattle.drain_steps.specs.Ranges.{RangesHold};

/// A range that is served has messages, from number 1 on, all of which were sent before.
pub fn ranges_hold()
    ensures law { RangesHold }
{}

//! What the other calls of an end make of the measure.

ghost use Rattle.drain_laws.specs.Calls.{CallsFall};

/// Each call but a frame lowers the measure or leaves it, what it writes among it; a tick that writes a heartbeat raises it by 1.
pub fn calls_fall()
    ensures law { CallsFall }
{}

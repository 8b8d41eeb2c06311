//! What an end sends again, computed.

ghost use Rattle.drain_steps.specs.Rows.{ServedSample};

/// How many messages the initiator of a session is to send again, whose only entry was lost.
pub fn served_sample() -> u64
    ensures served { ServedSample result }
{
    1
}

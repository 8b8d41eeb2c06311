//! A handshake, computed.

ghost use Rattle.drain_opening.specs.Rows.{OpeningSample};

/// How many messages the handshake of two ends has whose session was negotiated before.
pub fn opening_sample() -> u64
    ensures handshake { OpeningSample result }
{
    2
}

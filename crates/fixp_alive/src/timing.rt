//! What a moment says of the last message that was sent or received (FIXP 1.1, keep-alive interval).

ghost use Rattle.std.specs.Prelude.{◌≡◌, ◌≤◌};
ghost use Rattle.fixp_alive.specs.Timing.{is_due, is_silent, is_late};

/// How many of its peer's intervals an end waits for anything to come.
const INTERVALS_OF_SILENCE: u64 = 3;

/// How long a handshake may take from the connection's beginning on, in milliseconds.
const HANDSHAKE_LIMIT: u64 = 10_000;

/// Whether a heartbeat is due at the moment `now`: nothing was sent since `last_sent` for the own interval. All three are in
/// milliseconds.
pub fn due(last_sent: u64, interval: u32, now: u64) -> bool
    requires { last_sent ≤ now }
    ensures { result ≡ is_due last_sent interval now }
{
    now - last_sent >= u64::from(interval)
}

/// Whether the peer is silent at the moment `now`: nothing was received since `last_received` for three of the peer's
/// intervals. All three are in milliseconds.
pub fn silent(last_received: u64, interval: u32, now: u64) -> bool
    requires { last_received ≤ now }
    ensures { result ≡ is_silent last_received interval now }
{
    now - last_received >= INTERVALS_OF_SILENCE * u64::from(interval)
}

/// Whether a handshake that began at `start` is late at the moment `now`, if it is not done: ten seconds have gone. Both are
/// in milliseconds.
pub fn late(start: u64, now: u64) -> bool
    requires { start ≤ now }
    ensures { result ≡ is_late start now }
{
    now - start >= HANDSHAKE_LIMIT
}

//! The phases of a connection.

ghost use Rattle.std.specs.Prelude.{◌≡◌};
ghost use Rattle.fixp_shake.specs.Phases.{is_closing, is_established, is_establishing, is_idle, is_negotiating, is_shaken};

/// How far a connection has come (FIXP 1.1, "Session lifecycle").
#[derive(Clone, Copy, Debug)]
pub enum Phase {
    /// Begun, and nothing agreed on.
    Idle,
    /// The initiator awaits the answer to its Negotiate.
    Negotiating,
    /// The initiator awaits the answer to its Establish.
    Establishing,
    /// Messages go both ways.
    Established,
    /// The own Terminate was written, and the peer's is awaited.
    Closing,
    /// The connection is over.
    Ended,
}

/// Whether nothing is agreed on yet.
pub fn is_idle(phase: Phase) -> bool
    ensures { result ≡ is_idle phase }
{
    matches!(phase, Phase::Idle)
}

/// Whether the answer to a Negotiate is awaited.
pub fn is_negotiating(phase: Phase) -> bool
    ensures { result ≡ is_negotiating phase }
{
    matches!(phase, Phase::Negotiating)
}

/// Whether the answer to an Establish is awaited.
pub fn is_establishing(phase: Phase) -> bool
    ensures { result ≡ is_establishing phase }
{
    matches!(phase, Phase::Establishing)
}

/// Whether messages go both ways.
pub fn is_established(phase: Phase) -> bool
    ensures { result ≡ is_established phase }
{
    matches!(phase, Phase::Established)
}

/// Whether the peer's answer to the own Terminate is awaited.
pub fn is_closing(phase: Phase) -> bool
    ensures { result ≡ is_closing phase }
{
    matches!(phase, Phase::Closing)
}

/// Whether the handshake is done.
pub fn is_shaken(phase: Phase) -> bool
    ensures { result ≡ is_shaken phase }
{
    matches!(phase, Phase::Established | Phase::Closing)
}

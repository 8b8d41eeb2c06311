//! The measure and what is counted, computed for two connections.

ghost use Rattle.std.specs.Prelude.{◌≡◌};
ghost use Rattle.drain_laws.specs.Beginning.{bound};
ghost use Rattle.drain_laws.specs.Rows.{InitiatorCounted, ReaderCounted, FallsCounted, NegotiationCounted, before};
ghost use Rattle.drain_laws.specs.Samples.{LoadSample, GapSample};

/// The load of an initiator over a whole connection, down to none.
pub fn load_sample()
    ensures law { LoadSample }
{}

/// The load of a reader that asks for three messages, which come again.
pub fn gap_sample()
    ensures law { GapSample }
{}

/// What is under way and waited for at both of them.
pub fn counts_sample()
    ensures initiator { InitiatorCounted }
    ensures reader { ReaderCounted }
{}

/// What lowers the measure by 1 alone, and what raises it.
pub fn falls_sample()
    ensures law { FallsCounted }
{}

/// An acceptor that takes an Establish, and one that does not know that the session is negotiated.
pub fn negotiation_sample()
    ensures law { NegotiationCounted }
{}

/// How much that initiator and its acceptor have to do before they begin, of at most 280.
pub fn idle_sample() -> u64
    ensures measure { result ≡ before }
    ensures most { bound 7 ≡ 280 }
{
    170
}

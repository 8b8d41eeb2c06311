//! One connection of each end, over one link.

ghost use Rattle.honest_turns.specs.Laws.{ConnectionHolds, RestHolds, WholeIsEqual};

/// Two connections over one link, of two ends that know no more of each other than was sent, end by no violation but silence and a late
/// handshake, and the ends know no more of each other behind them.
pub fn connection_holds()
    ensures law { ConnectionHolds }
{}

/// Where the two ends are at rest behind it, each inbox of a flow with numbers awaits one past all of the other's outbox.
pub fn rest_holds()
    ensures law { RestHolds }
{}

/// Such an inbox that applies a beginning of the other's journal has applied all of it.
pub fn whole_is_equal()
    ensures law { WholeIsEqual }
{}

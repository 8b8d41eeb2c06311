//! What two ends have to do over a whole session, computed.

ghost use Rattle.std.specs.Prelude.{◌≡◌, []};
ghost use Rattle.honest_ends.specs.PhaseSamples.{outbox, after_repair};
ghost use Rattle.drain_ends.specs.Falling.{measure};
ghost use Rattle.drain_ends.specs.Rows.{MeasureSample, WaitedSample, ToDoSample};

/// What is left to do once an entry that was lost has come: 20 at the acceptor, which is to tell its finish, and 28 at the initiator,
/// which is to tell its own and to close the connection.
pub fn measure_sample() -> u64
    ensures left { result ≡ measure outbox [] after_repair }
    ensures session { MeasureSample }
    ensures waited { WaitedSample }
    ensures due { ToDoSample }
{
    48
}

//! Sample sessions that meet every premise of the guarantee: its words are not empty.
//! Each function has an empty body; its clause is a session written out in `specs/Samples.antt`.

ghost use Rattle.session_model.specs.Samples.{SequencedSample, SamplePlansGoOn, UnsequencedSample, PartsSample, HeldSample, HistorySample, HistoriesSample, PlansSample};

/// Two lives at each end, a recoverable and an idempotent flow, a refused record that stays and one that is lost, connections
/// that reached nobody, a rejected Establish, a retransmission, a jump that is reported, and the finishes of both ends. It
/// gives how many of the events that end b accepted in its second life are processed for sure: all of them, and no other
/// number will do.
pub fn sequenced_sample() -> u64
    ensures session { SequencedSample result }
    ensures plans { SamplePlansGoOn }
{
    5
}

/// A publisher of two lives on an unsequenced flow, and a listener that misses a message.
pub fn unsequenced_sample()
    ensures session { UnsequencedSample }
{}

/// Growth over one connection in two parts, on a recoverable and on an idempotent flow.
pub fn parts_sample()
    ensures parts { PartsSample }
{}

/// A message that comes too early, is held, and is applied with the one that it waited for.
pub fn held_sample()
    ensures held { HeldSample }
{}

/// The first steps of a session in the order of time, and what they make of both ends.
pub fn history_sample()
    ensures history { HistorySample }
{}

/// A history that goes on, and that is finished.
pub fn histories_sample()
    ensures histories { HistoriesSample }
{}

/// A plan of which a beginning was sent, and then the rest.
pub fn plans_sample()
    ensures plans { PlansSample }
{}

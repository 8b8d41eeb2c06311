//! The feeding of a life: how many messages each sender has, the lines of INPUT, and the mark behind them.

ghost use Rattle.std.specs.Prelude.{◌≡◌, ◌≤◌, length, IsTrue, IsFalse};
ghost use Rattle.gw_outside.specs.Faults.{HasRisen};
ghost use Rattle.conn_feed.specs.declared.end.FeedEnd.TheVariants as ends;
ghost use Rattle.conn_feed.specs.Fed.{AtSeats, parts_of};
ghost use Rattle.conn_feed.specs.Course.{point_of};
ghost use Rattle.conn_fed.specs.Fed.{FedFrom, IsMarked, FedBy};

use conn_door::{Entrance, ServeFault};
use conn_feed::{FeedEnd, Feeder};
use gate_senders::Gate;
use gw_links::Wake;
use gw_outside::{Sink, Source};
use jr_dated::Journal;
use std::sync::Wait;
use std::sync::atomic::AtomicBool;

/// Tells ACCEPTED how many messages each sender has, and feeds the lines of INPUT until something ends that.
fn tell_and_feed<O: Journal, A: Sink, S: Source, W: Wake, R: Wait>(
    gate: &Gate<O>,
    feeder: &mut Feeder<O, A>,
    input: &mut S,
    entrance: &Entrance<W>,
    over: &AtomicBool,
    rt: &R,
) -> FeedEnd
    requires seats { AtSeats gate.now feeder.old.senders.items }
    ensures seats { AtSeats gate.now feeder.new.senders.items }
    ensures long { length feeder.new.senders.items ≡ length feeder.old.senders.items }
    ensures fed { FedFrom (point_of A.taken feeder.old) (point_of A.taken feeder.new) (S.left input.old) (S.left input.new) result }
    ensures accepted { result ≡ ends.Accepted → HasRisen (A.faults feeder.old.accepted) (A.faults feeder.new.accepted) }
    ensures accepted_counted { A.faults feeder.old.accepted ≤ A.faults feeder.new.accepted }
    ensures input { result ≡ ends.Input → HasRisen (S.faults input.old) (S.faults input.new) }
    ensures input_counted { S.faults input.old ≤ S.faults input.new }
{
    match feeder.tell_counts() {
        Ok(()) => feeder.feed(gate, input, entrance, over, rt),
        Err(end) => end,
    }
}

/// Whether INPUT came to its end, and each of its lines is answered.
fn is_ended(end: FeedEnd) -> bool
    ensures yes { IsTrue result → end ≡ ends.Ended }
    ensures no { IsFalse result → end ≡ ends.Ended → ⊥ }
{
    matches!(end, FeedEnd::Ended)
}

/// Adds the mark where INPUT came to its end, and there are senders. Answers the refusal that was met, if one was other than that it stands already.
fn mark<O: Journal, A: Sink, R: Wait>(
    gate: &Gate<O>,
    feeder: &mut Feeder<O, A>,
    end: FeedEnd,
    rt: &R,
) -> Option<ServeFault>
    requires seats { AtSeats gate.now feeder.old.senders.items }
    ensures seats { AtSeats gate.now feeder.new.senders.items }
    ensures long { length feeder.new.senders.items ≡ length feeder.old.senders.items }
    ensures marked { IsMarked (parts_of feeder.old.senders.items) (parts_of feeder.new.senders.items) end result }
    ensures accepted { feeder.new.accepted ≡ feeder.old.accepted }
{
    if is_ended(end) && !feeder.is_empty() {
        return feeder.finish(gate, rt);
    }
    None
}

/// Whether the connections are to stop behind a feeding that ended so, with the mark refused so, if it was.
fn stops(end: FeedEnd, refused: Option<ServeFault>) -> bool {
    match end {
        // What the outbox has is still to be sent, and the peer is heard to its end.
        FeedEnd::Ended | FeedEnd::Closed | FeedEnd::Stopped => refused.is_some(),
        FeedEnd::Input
        | FeedEnd::Accepted
        | FeedEnd::Journal
        | FeedEnd::Full { .. }
        | FeedEnd::Memory => true,
    }
}

/// Feeds the lines of INPUT, adds the mark behind them where it comes to its end, and tells the connections to stop where something else ended that.
pub(crate) fn feed_all<O: Journal, A: Sink, S: Source, W: Wake, R: Wait>(
    gate: &Gate<O>,
    feeder: &mut Feeder<O, A>,
    input: &mut S,
    entrance: &Entrance<W>,
    over: &AtomicBool,
    rt: &R,
) -> (FeedEnd, Option<ServeFault>)
    requires seats { AtSeats gate.now feeder.old.senders.items }
    ensures seats { AtSeats gate.now feeder.new.senders.items }
    ensures long { length feeder.new.senders.items ≡ length feeder.old.senders.items }
    ensures fed { FedBy (point_of A.taken feeder.old) (point_of A.taken feeder.new) (S.left input.old) (S.left input.new) result.0 result.1 }
    ensures accepted { result.0 ≡ ends.Accepted → HasRisen (A.faults feeder.old.accepted) (A.faults feeder.new.accepted) }
    ensures accepted_counted { A.faults feeder.old.accepted ≤ A.faults feeder.new.accepted }
    ensures input { result.0 ≡ ends.Input → HasRisen (S.faults input.old) (S.faults input.new) }
    ensures input_counted { S.faults input.old ≤ S.faults input.new }
{
    let end = tell_and_feed(gate, feeder, input, entrance, over, rt);
    let refused = mark(gate, feeder, end, rt);
    if stops(end, refused) {
        entrance.stop();
    }
    entrance.wake();
    (end, refused)
}

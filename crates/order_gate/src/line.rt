//! A line: a queue by which the places of a desk's messages go from the hand that deals them out to the desk, in order.
ghost use Rattle.std.specs.Prelude.{◌≡◌, true, false, [], ◌∷◌, ◌++◌, length, IfOk};
ghost use Rattle.crossbeam_queue.specs.Passes.{view, IsPassOf};
ghost use Rattle.order_gate.specs.Line.{log, InOrder};

use crossbeam_queue::protocol::{Join, Lesson, Outcome, Protocol, Split};
use crossbeam_queue::{Pass, RuledArrayQueue};
use std::collections::LinkedList;
use std::sync::Wait;
use std::thread;

/// What a pass of a line may do, and what it has pushed and popped. No value of it is made.
pub(crate) struct Log {
    pub(crate) pushes: bool,
    pub(crate) pops: bool,
    pub(crate) pushed: LinkedList<u64>,
    pub(crate) popped: LinkedList<u64>,
}

/// What was popped and what is queued is, in order, what was pushed.
pub(crate) struct Ordered;

impl Protocol<u64, Log> for Ordered {
    ghost use Rattle.std.specs.Prelude.{true, []};
    ghost use Rattle.order_gate.specs.Line.{log, InOrder};

    ghost holds = { InOrder };

    ghost first = { log true true [] [] };
}

/// One pass pushes and another pops.
pub(crate) struct Ends;

impl Split<Log> for Ends {
    ghost use Rattle.std.specs.Prelude.{true, false, []};
    ghost use Rattle.order_gate.specs.Line.{log};

    ghost left = { λ v. log true false v.pushed [] };

    ghost right = { λ v. log false true [] v.popped };
}

impl Join<Log> for Ends {
    ghost use Rattle.std.specs.Prelude.{true, false, []};
    ghost use Rattle.order_gate.specs.Line.{log};

    ghost both = { λ v w. log true true v.pushed w.popped };

    ghost spent = { log false false [] [] };
}

/// The place was pushed.
pub(crate) struct Pushed;

impl Outcome<u64, Log> for Pushed {
    ghost use Rattle.std.specs.Prelude.{◌≡◌, [], ◌∷◌, ◌++◌};
    ghost use Rattle.order_gate.specs.Line.{log};

    ghost then = { λ v x w. w ≡ log v.pushes v.pops (v.pushed ++ x ∷ []) v.popped };
}

/// The place was popped.
pub(crate) struct Popped;

impl Outcome<u64, Log> for Popped {
    ghost use Rattle.std.specs.Prelude.{◌≡◌, [], ◌∷◌, ◌++◌};
    ghost use Rattle.order_gate.specs.Line.{log};

    ghost then = { λ v x w. w ≡ log v.pushes v.pops v.pushed (v.popped ++ x ∷ []) };
}

/// What was popped begins what was pushed.
pub(crate) struct Passed;

impl Lesson<u64, Log> for Passed {
    ghost use Rattle.std.specs.Prelude.{◌≡◌, ◌++◌};

    ghost fact = { λ v items. v.pushed ≡ v.popped ++ items };
}

/// The queue of one desk, and the passes of its two ends.
pub(crate) type Line = RuledArrayQueue<u64, Log, Ordered>;

pub(crate) type End = Pass<u64, Log>;

/// Pushes all places, in order.
pub(crate) fn deal<R: Wait>(rt: &R, line: &Line, end: &mut End, places: &[u64])
    requires own { IsPassOf line.now end.old }
    requires begins { view end.old ≡ log true false [] [] }
    ensures own { IsPassOf line.now end.new }
    ensures dealt { view end.new ≡ log true false places.now [] }
{
    let mut next = 0;
    for _ in rt.forever() {
        if next >= places.len() {
            break;
        }
        match line.try_push_as::<Pushed>(end, places[next]) {
            Ok(()) => next += 1,
            Err(_) => thread::yield_now(),
        }
    }
}

/// The next place, as soon as it is there.
pub(crate) fn next<R: Wait>(rt: &R, line: &Line, end: &mut End) -> u64
    requires own { IsPassOf line.now end.old }
    requires pops { (view end.old).pops ≡ true }
    ensures own { IsPassOf line.now end.new }
    ensures popped { view end.new ≡ log (view end.old).pushes (view end.old).pops (view end.old).pushed ((view end.old).popped ++ result ∷ []) }
{
    for _ in rt.forever() {
        match line.try_pop_as::<Popped>(end) {
            Some(place) => return place,
            None => thread::yield_now(),
        }
    }
    unreachable!()
}

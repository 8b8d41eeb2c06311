//! The hands of a business, all at once.
ghost use Rattle.std.specs.Prelude.{◌≤◌, length, All};
ghost use Rattle.gate_senders.specs.Gate.{senders_of};
ghost use Rattle.gate_staff.specs.Business.{lock_of};
ghost use Rattle.gate_staff.specs.Hands.{hands_in, WorkedEach};

use crate::business::Business;
use gate_senders::Gate;
use jr_dated::Journal;
use lists::List;
use sbe_value::Payloads;
use std::sync::Wait;
use std::thread;
use std::thread::Threads;

/// The most threads in which the hands of a call do their parts.
const THREADS: usize = 4;

/// Has each hand do its part, at once in a few threads: no more than there are messages.
fn run_each<J: Journal + Send, B: Business<J> + Send, R: Threads + Wait + Sync>(
    hands: &mut [B::Hand],
    payloads: &Payloads,
    gate: &Gate<J>,
    rt: &R,
)
    requires ready { All (B.ready (lock_of gate.now) (senders_of gate.now)) hands.old }
    requires most { length payloads.now ≤ 512 }
    ensures worked { WorkedEach (B.worked (lock_of gate.now) (senders_of gate.now) payloads.now) hands.old hands.new }
{
    let count = payloads.len().min(THREADS).max(1);
    let work = |_: usize, hand: &mut B::Hand|
        requires { B.ready (lock_of gate.now) (senders_of gate.now) hand.old × (length payloads.now ≤ 512) }
        ensures { B.worked (lock_of gate.entry.now) (senders_of gate.entry.now) payloads.entry.now hand.old hand.new }
    { B::work(hand, payloads, gate, rt) };
    thread::for_each_mut(rt, hands, count, &work);
}

/// Has the hands that were given out do their parts, all at once.
pub fn run_hands<J: Journal + Send, B: Business<J> + Send, R: Threads + Wait + Sync>(
    hands: Option<List<B::Hand>>,
    payloads: &Payloads,
    gate: &Gate<J>,
    rt: &R,
) -> Option<List<B::Hand>>
    requires ready { All (B.ready (lock_of gate.now) (senders_of gate.now)) (hands_in hands) }
    requires most { length payloads.now ≤ 512 }
    ensures worked { WorkedEach (B.worked (lock_of gate.now) (senders_of gate.now) payloads.now) (hands_in hands) (hands_in result) }
{
    match hands {
        None => None,
        Some(hands) => {
            let mut hands = Vec::from(hands);
            run_each::<J, B, R>(hands.as_mut_slice(), payloads, gate, rt);
            Some(List::from(hands))
        }
    }
}

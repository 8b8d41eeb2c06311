//! All senders at once.
ghost use Rattle.std.specs.Prelude.{◌≡◌, false, All, OnOk};
ghost use Rattle.gate_staff.specs.Runs.{IsReady, Ran, RanEach, IsWhole, IsAdmitted, IsLowest};

use crate::door::Door;
use crate::sender::Sender;
use gate_senders::Gate;
use jr_boxes::SubmitFault;
use jr_dated::Journal;
use std::sync::Wait;
use std::thread;
use std::thread::Threads;

/// Submits what is left of each sender's plan, from its `done` on, until all of it is done, or a message is refused, or the door turns
/// the sender away. The senders run at once, each in a thread of its own where one can be made, and one after another where not. The
/// door is called before each submit. Each `done` counts the messages accepted, each `refused` is what this call met there, and each
/// `turned` whether the door turned it away.
///
/// # Errors
///
/// The refusal of the sender with the lowest number among those that met one. What was accepted stands.
pub fn run_senders<J: Journal + Send, D: Door + Sync, R: Threads + Wait + Sync>(
    gate: &Gate<J>,
    senders: &mut [Sender<J>],
    door: &D,
    rt: &R,
) -> Result<(), SubmitFault>
    requires ready { All (λ s. IsReady gate.now s) senders.old }
    ensures each { RanEach gate.now senders.old senders.new }
    ensures whole { OnOk result (All IsWhole senders.new) }
    ensures admits { D.turns ≡ false → All IsAdmitted senders.new }
    ensures lowest { IsLowest senders.new result }
{
    run_each(gate, senders, door, rt);
    lowest_refusal(senders)
}

/// Has each sender submit what is left of its plan, at once.
fn run_each<J: Journal + Send, D: Door + Sync, R: Threads + Wait + Sync>(
    gate: &Gate<J>,
    senders: &mut [Sender<J>],
    door: &D,
    rt: &R,
)
    requires ready { All (λ s. IsReady gate.now s) senders.old }
    ensures each { RanEach gate.now senders.old senders.new }
    ensures admits { D.turns ≡ false → All IsAdmitted senders.new }
{
    let count = senders.len().max(1);
    let submit = |_: usize, sender: &mut Sender<J>|
        requires { IsReady gate.now sender.old }
        ensures ran { Ran gate.entry.now sender.old sender.new }
        ensures admits { D.turns ≡ false → IsAdmitted sender.new }
    { sender.submit_rest(gate, door, rt) };
    thread::for_each_mut(rt, senders, count, &submit);
}

/// The refusal of the sender with the lowest number among those that met one.
fn lowest_refusal<J: Journal>(senders: &[Sender<J>]) -> Result<(), SubmitFault>
    ensures lowest { IsLowest senders.now result }
{
    let mut least = u16::MAX;
    let mut answer = Ok(());
    for sender in senders {
        if let Some(fault) = sender.refused {
            let number = sender.pass.number();
            if number < least {
                least = number;
                answer = Err(fault);
            }
        }
    }
    answer
}

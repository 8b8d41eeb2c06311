//! The senders of a life: all plans at once, and the Finish behind them.

ghost use Rattle.std.specs.Prelude.{◌≡◌, true, All, List, None};
ghost use Rattle.gate_turn.specs.Places.{known};
ghost use Rattle.gate_turn.specs.Calls.{IsFree};
ghost use Rattle.gate_senders.specs.Gate.{IsPassAt, senders_of};
ghost use Rattle.gate_staff.specs.Business.{lock_of};
ghost use Rattle.gate_staff.specs.Plans.{HasPasses, Did};
ghost use Rattle.gate_staff.specs.Runs.{IsReady, IsAdmitted};
ghost use Rattle.gate_staff.specs.declared.sender.Sender.{Sender};
ghost use Rattle.conn_door.specs.Doors.{is_open};
ghost use Rattle.conn_door.specs.Senders.{Finishes, SubmittedAll};

use crate::answer::{ServeFault, served_if};
use crate::entrance::Entrance;
use gate_senders::{Gate, Kept};
use gate_staff::{OpenDoor, Plans, Producers};
use gate_turn::Pass;
use gw_links::Wake;
use jr_dated::Journal;
use std::sync::Wait;
use std::thread::Threads;

/// Adds the Finish by a pass. Answers the refusal that was met, if one was other than that it stands already.
pub fn finish_by<O: Journal, R: Wait>(
    gate: &Gate<O>,
    pass: &mut Pass<Kept<O>>,
    rt: &R,
) -> Option<ServeFault>
    requires own { IsPassAt gate.now pass.old }
    requires free { IsFree pass.old }
    ensures own { IsPassAt gate.now pass.new }
    ensures free { IsFree pass.new }
    ensures finishes { Finishes (known pass.old) (known pass.new) result }
{
    served_if(gate_staff::finish_by(gate, pass, rt))
}

/// A run of the senders through the door that the connections keep.
fn run_plans<O: Journal + Send, W: Wake + Sync, R: Threads + Wait + Sync>(
    gate: &Gate<O>,
    senders: &mut Plans<O>,
    entrance: &Entrance<W>,
    rt: &R,
)
    requires has { HasPasses (lock_of gate.now) (senders_of gate.now) senders.old }
    ensures did { Did (lock_of gate.now) (senders_of gate.now) senders.old senders.new }
    ensures admitted { is_open entrance.now ≡ true → All IsAdmitted senders.new.senders.items }
{
    match entrance.wide() {
        Some(door) => senders.produce_all(gate, &door, rt),
        None => senders.produce_all(gate, entrance, rt),
    }
}

/// Has the senders submit all plans, and adds the Finish where all are submitted and there are senders. Answers the refusal that was met, if one
/// was other than that the outbox is closed.
fn submit_plans<O: Journal + Send, W: Wake + Sync, R: Threads + Wait + Sync>(
    gate: &Gate<O>,
    senders: &mut Plans<O>,
    entrance: &Entrance<W>,
    rt: &R,
) -> Option<ServeFault>
    requires ready { All (λ s. IsReady gate.now s) senders.old.senders.items }
    ensures ready { All (λ s. IsReady gate.now s) senders.new.senders.items }
    ensures submitted { SubmittedAll gate.now senders.old.senders.items senders.new.senders.items result }
    ensures admitted { is_open entrance.now ≡ true → All IsAdmitted senders.new.senders.items }
{
    senders.set_out();
    run_plans(gate, senders, entrance, rt);
    served_if(Producers::<O>::fault(senders))
}

/// Submits the plans and adds the Finish behind them, and tells the connections to stop where a refusal was met. Then it wakes them.
/// Answers the refusal that was met, if one was other than that the outbox is closed.
pub fn submit_all<O: Journal + Send, W: Wake + Sync, R: Threads + Wait + Sync>(
    gate: &Gate<O>,
    senders: &mut Plans<O>,
    entrance: &Entrance<W>,
    rt: &R,
) -> Option<ServeFault>
    requires ready { All (λ s. IsReady gate.now s) senders.old.senders.items }
    ensures ready { All (λ s. IsReady gate.now s) senders.new.senders.items }
    ensures submitted { SubmittedAll gate.now senders.old.senders.items senders.new.senders.items result }
    ensures admitted { is_open entrance.now ≡ true → All IsAdmitted senders.new.senders.items }
{
    let refused = submit_plans(gate, senders, entrance, rt);
    if refused.is_some() {
        entrance.stop();
    }
    entrance.wake();
    refused
}

/// Behind the connections, has the senders that were turned away submit what is left of their plans, and adds the Finish where all are
/// submitted. What was refused before is answered, and nothing is done then. Answers the refusal that was met, if one was other than
/// that the outbox is closed.
pub(crate) fn submit_turned<O: Journal + Send, R: Threads + Wait + Sync>(
    gate: &Gate<O>,
    senders: &mut Plans<O>,
    refused: Option<ServeFault>,
    rt: &R,
) -> Option<ServeFault>
    requires ready { All (λ s. IsReady gate.now s) senders.old.senders.items }
    ensures ready { All (λ s. IsReady gate.now s) senders.new.senders.items }
    ensures one_run { (before : List (Sender _ _)) → SubmittedAll gate.now before senders.old.senders.items refused → SubmittedAll gate.now before senders.new.senders.items result }
    ensures admitted { result ≡ None → All IsAdmitted senders.new.senders.items }
    ensures same { All IsAdmitted senders.old.senders.items → senders.new.senders.items ≡ senders.old.senders.items }
{
    if refused.is_some() || !Producers::<O>::is_kept_back(senders) {
        return refused;
    }
    senders.produce_all(gate, &OpenDoor, rt);
    served_if(Producers::<O>::fault(senders))
}

//! The whole of `soak`: a rehearsal by the script that is made from a number of messages.

ghost use Rattle.std.specs.Prelude.{◌≡◌, ◌≤◌};
ghost use Rattle.gw_outside.specs.Faults.{HasRisen};
ghost use Rattle.cmd_soak.specs.Soak.{soak_script};
ghost use Rattle.cmd_rehearse.specs.Promise.{Gave, IsEnd};

use crate::command::run_script;
use crate::outcome::Outcome;
use cmd_base::begin;
use cmd_soak::soak_script;
use gw_outside::Sink;
use gw_rehearse::Watch;
use std::alloc::Global;
use std::sync::Wait;
use std::thread::Threads;

/// `soak`: runs the script of so many messages over two ends in memory, and gives OUT the lines of what both hold behind it. OUT is begun
/// before the run, which may be long, and of which the watch is told how far it is.
#[tactic(auto, using(crate::proofs::Giving::keeps_self, crate::proofs::Giving::gave_unbegun))]
pub fn run_soak<W: Watch, R: Threads + Wait + Sync, K: Sink>(
    rt: &R,
    alloc: Global,
    messages: u32,
    out: &mut K,
    watch: &mut W,
) -> Outcome
    requires range { (4 ≤ messages) × (messages ≤ 100000) }
    ensures gave { Gave (soak_script messages) (K.taken out.old) (K.taken out.new) result }
    ensures ends { IsEnd result }
    ensures never_falls { K.faults out.old ≤ K.faults out.new }
    ensures unwritten { result ≡ Outcome.OutputFault → HasRisen (K.faults out.old) (K.faults out.new) }
{
    let Ok(script) = soak_script(alloc, messages) else {
        return Outcome::Memory;
    };
    let Ok(()) = begin(out) else {
        return Outcome::OutputFault;
    };
    run_script(rt, alloc, &script, out, watch)
}

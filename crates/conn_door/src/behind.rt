//! What is left of the senders' plans once the connections are over.

ghost use Rattle.std.specs.Prelude.{◌≡◌, All, List};
ghost use Rattle.gate_staff.specs.Runs.{IsReady, IsAdmitted};
ghost use Rattle.gate_staff.specs.declared.sender.Sender.{Sender};
ghost use Rattle.conn_door.specs.Answers.{answer_of, IsUnrefused};
ghost use Rattle.conn_door.specs.Senders.{SubmittedAll, EndedSo};

use crate::answer::{ServeFault, is_unrefused, late_answer};
use crate::senders::submit_turned;
use gate_senders::Gate;
use gate_staff::Plans;
use jr_dated::Journal;
use std::sync::Wait;
use std::thread::Threads;

/// What a life answers that answered so for its connections and the senders beside them. Where no refusal is answered, and nothing failed, the
/// senders that were turned away go on first.
pub fn submit_behind<O: Journal + Send, R: Threads + Wait + Sync>(
    gate: &Gate<O>,
    senders: &mut Plans<O>,
    answer: Result<(), ServeFault>,
    rt: &R,
) -> Result<(), ServeFault>
    requires ready { All (λ s. IsReady gate.now s) senders.old.senders.items }
    ensures ready { All (λ s. IsReady gate.now s) senders.new.senders.items }
    ensures same { All IsAdmitted senders.old.senders.items → senders.new.senders.items ≡ senders.old.senders.items }
    ensures kept { (IsUnrefused answer → ⊥) → (senders.new.senders.items ≡ senders.old.senders.items) × (result ≡ answer) }
    ensures behind { (before : List (Sender _ _)) (connections : _) (refused : _) → SubmittedAll gate.now before senders.old.senders.items refused → answer ≡ answer_of connections refused → EndedSo gate.now before senders.new.senders.items connections result }
{
    if !is_unrefused(answer) {
        return answer;
    }
    let late = submit_turned(gate, senders, None, rt);
    late_answer(answer, late)
}

//! What the senders of an end do, each by its pass, which is in the list before and after.

ghost use Rattle.std.specs.Prelude.{◌≡◌, ◌≢◌, ℕ, ◌+◌, ◌≤◌, None, Some};
ghost use Rattle.fixp_msgs.specs.Payload.{IsApplication};
ghost use Rattle.gate_turn.specs.Places.{known};
ghost use Rattle.gate_turn.specs.Listed.{pass_at, known_at};
ghost use Rattle.gate_turn.specs.Calls.{IsFree};
ghost use Rattle.gate_senders.specs.Gate.{IsPassAt};
ghost use Rattle.cases_made.specs.Driving.{HasPasses};

use crate::journals::Log;
use gate_senders::{Gate, Kept};
use gate_turn::{Pass, Passes};
use std::sync::Wait;

/// The pass of a number, out of the list.
pub(crate) fn taken(
    gate: &Gate<Log>,
    passes: &mut Passes<Kept<Log>>,
    senders: u16,
    number: u16,
) -> Pass<Kept<Log>>
    requires has { HasPasses gate.now passes.old senders }
    requires within { (1 ≤ number) × (number ≤ senders + 1) }
    ensures there { pass_at passes.old number ≡ Some result }
    ensures own { IsPassAt gate.now result }
    ensures free { IsFree result }
    ensures number { (known result).number ≡ number }
    ensures gone { pass_at passes.new number ≡ None }
    ensures others { (n : ℕ) → n ≢ number → pass_at passes.new n ≡ pass_at passes.old n }
{
    let _ = gate;
    let _ = senders;
    let Some(pass) = passes.take(number) else {
        unreachable!()
    };
    pass
}

/// A sender submits a message, and it is said whether it was accepted.
pub(crate) fn submit<R: Wait>(
    gate: &Gate<Log>,
    passes: &mut Passes<Kept<Log>>,
    senders: u16,
    sender: u16,
    payload: &[u8],
    rt: &R,
) -> bool
    requires has { HasPasses gate.now passes.old senders }
    requires within { (1 ≤ sender) × (sender ≤ senders) }
    requires payload { IsApplication payload.now }
    ensures has { HasPasses gate.now passes.new senders }
    ensures connection { known_at passes.new (senders + 1) ≡ known_at passes.old (senders + 1) }
{
    let mut pass = taken(gate, passes, senders, sender);
    let answer = gate.submit(&mut pass, payload, rt);
    passes.give(pass);
    answer.is_ok()
}

/// The first sender adds the mark that nothing more comes, and it is said whether it stands now.
pub(crate) fn finish<R: Wait>(
    gate: &Gate<Log>,
    passes: &mut Passes<Kept<Log>>,
    senders: u16,
    rt: &R,
) -> bool
    requires has { HasPasses gate.now passes.old senders }
    ensures has { HasPasses gate.now passes.new senders }
    ensures connection { known_at passes.new (senders + 1) ≡ known_at passes.old (senders + 1) }
{
    let mut pass = taken(gate, passes, senders, 1);
    let answer = gate.finish(&mut pass, rt);
    passes.give(pass);
    answer.is_ok()
}

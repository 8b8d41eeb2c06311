//! One entry of a pass, under the lock.
ghost use Rattle.std.specs.Prelude.{◌≡◌, ◌+◌, IfSome, IfNone};
ghost use Rattle.gate_turn.specs.Places.{known};
ghost use Rattle.gate_turn.specs.Calls.{IsFree, IsPassOf};
ghost use Rattle.turns_at_once.specs.Writing.{Sent};

use crate::book::Writes;
use gate_turn::{Held, Pass, TurnLock};
use std::sync::Wait;

/// Adds one entry of the pass to the value, and answers the number of entries. None comes where the value refused it.
pub fn submit<T: Writes, R: Wait>(lock: &TurnLock<T>, pass: &mut Pass<T>, rt: &R) -> Option<u64>
    requires own { IsPassOf lock.now pass.old }
    requires free { IsFree pass.old }
    ensures own { IsPassOf lock.now pass.new }
    ensures free { IsFree pass.new }
    ensures sent { IfSome result (λ n. Sent (known pass.old) (known pass.new) n) }
    ensures refused { IfNone result ((known pass.new).mine ≡ (known pass.old).mine) }
    ensures turns { (known pass.new).turns ≡ (known pass.old).turns + 1 }
    ensures kept { ((known pass.new).number ≡ (known pass.old).number) × ((known pass.new).made ≡ (known pass.old).made) }
{
    let Held { mut value } = lock.enter(pass, rt);
    if value.marked() || !value.write(pass.number()) {
        lock.leave(pass, Held { value });
        return None;
    }
    let number = value.length();
    lock.leave(pass, Held { value });
    Some(number)
}

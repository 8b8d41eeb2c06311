//! What an act that is done leaves to be told at the turn's end: on an idempotent flow, the numbers that were applied.

ghost use Rattle.std.specs.Prelude.{◌≡◌, ◌+◌, ◌≤◌, ◌++◌, true, false, length};
ghost use Rattle.fixp_shake.specs.Flows.{is_idempotent};
ghost use Rattle.fixp_replies.specs.Acts.{is_record};
ghost use Rattle.fixp_machine.specs.Machine.{to_tell};
ghost use Rattle.fixp_machine.specs.Sound.{Advances};

use fixp_replies::Act;
use fixp_shake::{EndConfig, is_idempotent};
use flow_idem::Applied;

/// An act is done, and the inbox waits for the number `next`: what it applied is to be told, and what it skips is not.
pub fn take_act(applied: &mut Applied, config: &EndConfig, act: Act, next: u64)
    requires advances { is_idempotent config.now.peer_flow ≡ true → Advances act applied.old.next next }
    requires room { is_record act ≡ true → 1 ≤ applied.old.room }
    ensures next { is_idempotent config.now.peer_flow ≡ true → applied.new.next ≡ next }
    ensures untold { applied.new.untold ≡ applied.old.untold ++ to_tell config.now act }
    ensures few { length applied.new.untold ≤ length applied.old.untold + 1 }
    ensures same { is_record act ≡ false → applied.new.untold ≡ applied.old.untold }
    ensures taken { applied.old.room ≤ applied.new.room + 1 }
    ensures kept { is_record act ≡ false → applied.new.room ≡ applied.old.room }
{
    if !is_idempotent(config.peer_flow) {
        return;
    }
    match act {
        Act::Apply { .. } => {
            applied.on_app();
        }
        Act::Skip { .. } => {
            applied.announce(next);
        }
        Act::Nothing | Act::Negotiated | Act::PeerFinished { .. } | Act::Told { .. } | Act::Ended =>
            {}
    }
}

//! What is asked before the messages of a plan are submitted.
ghost use Rattle.std.specs.Prelude.{◌≡◌, Bool, true, false, IsFalse};

use jr_boxes::SubmitFault;
use std::sync::Wait;

/// A place that each message of a plan passes before it is submitted. It may make the sender wait, and may turn it away.
pub trait Door {
    /// Whether it may turn a sender away.
    ghost turns: { Bool };

    /// Called before the sender of that number submits message `k` of its plan, from 1 on. Answers whether it may: a sender that is turned
    /// away submits nothing more in its run.
    fn before<R: Wait>(&self, sender: u16, k: u64, rt: &R) -> bool
        ensures { IsFalse result → turns ≡ true };

    /// Called where message `k` may be submitted in one piece with the one before it, which was let in. Answers whether it may: else the
    /// piece goes without it, and `before` is called for it then. It may not make the sender wait: the messages let in are not in the
    /// outbox yet, and whoever the door waits for may wait for them.
    fn with_it<R: Wait>(&self, _sender: u16, _k: u64, _rt: &R) -> bool {
        false
    }

    /// Called where a piece was accepted: its messages are stable.
    fn accepted(&self) {}

    /// Called behind a submit that was refused.
    fn refused<R: Wait>(&self, fault: SubmitFault, rt: &R);
}

/// The door that lets all pass.
#[derive(Clone, Copy, Drop)]
pub struct OpenDoor;

impl Door for OpenDoor {
    ghost turns = { false };

    fn before<R: Wait>(&self, _sender: u16, _k: u64, _rt: &R) -> bool {
        true
    }

    fn with_it<R: Wait>(&self, _sender: u16, _k: u64, _rt: &R) -> bool {
        true
    }

    fn refused<R: Wait>(&self, _fault: SubmitFault, _rt: &R) {}
}

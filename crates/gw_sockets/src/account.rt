//! What a dialer over sockets counts: the connections that are left, and its faults.

ghost use Rattle.std.specs.Prelude.{◌≡◌, ◌-◌, ◌≤◌, true, false};
ghost use Rattle.gw_outside.specs.Faults.{HasRisen};

use crate::reason::SocketReason;
use gw_outside::Failed;

/// The account of one dialer.
#[derive(Drop)]
pub(crate) struct Account {
    /// How many connections are left.
    pub(crate) left: u64,
    /// Whether a link has not come back yet.
    pub(crate) is_lent: bool,
    /// Why the last call that failed did.
    pub(crate) reason: Option<SocketReason>,
    /// How many calls have failed.
    pub(crate) faults: u64,
}

impl Account {
    /// So many connections are left.
    pub(crate) fn new(left: u64) -> Account
        ensures left { result.left ≡ left }
        ensures lent { result.is_lent ≡ false }
        ensures faults { result.faults ≡ 0 }
    {
        Account {
            left,
            is_lent: false,
            reason: None,
            faults: 0,
        }
    }

    /// A connection is lent.
    pub(crate) fn lend(&mut self)
        ensures left { self.new.left ≡ self.old.left - 1 }
        ensures lent { self.new.is_lent ≡ true }
        ensures faults { self.new.faults ≡ self.old.faults }
    {
        self.left = self.left.saturating_sub(1);
        self.is_lent = true;
    }

    /// Keeps why a call failed, and counts it.
    pub(crate) fn failed(&mut self, reason: SocketReason) -> Failed
        ensures risen { HasRisen self.old.faults self.new.faults }
        ensures grown { self.old.faults ≤ self.new.faults }
        ensures lent { self.new.is_lent ≡ self.old.is_lent }
        ensures left { self.new.left ≡ self.old.left }
    {
        self.reason = Some(reason);
        self.faults = self.faults.saturating_add(1);
        Failed
    }
}

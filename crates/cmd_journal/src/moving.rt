//! One journal moved. OLD is the disk of the outbox, NEW that of the inbox.

ghost use Rattle.std.specs.Prelude.{◌≡◌, ◌≤◌, ℕ};
ghost use Rattle.std.specs.Option.{ForSome};
ghost use Rattle.cmd_base.specs.Causes.{IsCaused, NoneFell, disk_counts};
ghost use Rattle.jr_log.specs.Fresh.{IsFresh, IsUsed};
ghost use Rattle.jr_log.specs.Migrates.{LeavesWhole};
ghost use Rattle.jr_log.specs.declared.faults.MigrateFault.TheVariants as migrate_fault;
ghost use Rattle.cmd_journal.specs.Moves.{KeepsOld, Moves, status_of};

use cmd_base::{JournalCause, Status, Which};
use gw_outside::Disk;
use jr_log::{MigrateFault, migrate};
use std::alloc::Global;

/// The status of a journal that was not moved.
fn refusal(fault: MigrateFault) -> Status
    ensures value { result ≡ status_of fault }
{
    match fault {
        MigrateFault::Memory => Status::Memory,
        MigrateFault::OldFault | MigrateFault::NewFault => Status::JournalFault,
        MigrateFault::NotFormatted => Status::JournalBad {
            which: Which::Outbox,
            cause: JournalCause::NotFormatted,
        },
        MigrateFault::Damaged { at } => Status::JournalBad {
            which: Which::Outbox,
            cause: JournalCause::Damaged { at },
        },
        MigrateFault::NotFresh => Status::JournalBad {
            which: Which::Inbox,
            cause: JournalCause::NotFresh,
        },
        MigrateFault::Full { entries, bytes } => Status::Full { entries, bytes },
    }
}

/// Moves the journal of format 1 that the old disk holds to the new one, as a journal of format 2. The old disk is only read. Whatever stop
/// comes, it leaves the new disk as it was, or without a journal, or with the whole one; where it tore no byte, the same call goes on to that.
pub fn migrate_journal<D: Disk>(alloc: Global, old: &mut D, new: &mut D) -> Status
    ensures moves { Moves D.told D.may_leave D.faults (record { outbox = old.old; inbox = new.old }) (record { outbox = old.new; inbox = new.new }) result }
    ensures old_kept { KeepsOld D.told D.may_leave old.old old.new }
    ensures used_kept { ForSome (D.told new.old) (λ content. IsUsed content → KeepsOld D.told D.may_leave new.old new.new) }
    ensures left { ForSome (D.told new.old) IsFresh → ForSome (D.told old.old) (LeavesWhole (D.may_leave new.old) (D.may_leave new.new)) }
    ensures quiet { result ≡ Status.Done → (D.faults old.new ≡ D.faults old.old) × (D.faults new.new ≡ D.faults new.old) }
    ensures none_fell { NoneFell (disk_counts (D.faults old.old) (D.faults new.old)) (disk_counts (D.faults old.new) (D.faults new.new)) }
    ensures cause { IsCaused (disk_counts (D.faults old.old) (D.faults new.old)) (disk_counts (D.faults old.new) (D.faults new.new)) result }
{
    match migrate(alloc, old, new) {
        Ok(()) => Status::Done,
        Err(fault) => refusal(fault),
    }
}

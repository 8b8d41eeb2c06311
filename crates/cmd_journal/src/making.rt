//! Both journals made, the outbox first. It takes no memory.

ghost use Rattle.std.specs.Prelude.{◌≡◌, ◌≤◌};
ghost use Rattle.cmd_base.specs.Causes.{IsCaused, NoneFell, disk_counts};
ghost use Rattle.cmd_journal.specs.Formats.{Formats, KeepsBehindHeader, KeepsJournal};

use cmd_base::{JournalCause, Status, Which};
use gw_outside::Disk;
use jr_record::FormatFault;
use jr_segments::format;

/// The status of a journal that was not made.
fn refusal(which: Which, fault: FormatFault) -> Status
    ensures already { fault ≡ FormatFault.Already → result ≡ Status.JournalBad which JournalCause.Already }
    ensures fault { fault ≡ FormatFault.Fault → result ≡ Status.JournalFault }
{
    match fault {
        FormatFault::Already => Status::JournalBad {
            which,
            cause: JournalCause::Already,
        },
        FormatFault::Fault => Status::JournalFault,
    }
}

/// Makes both disks journals without records. Where the outbox is refused, the inbox is not touched. Whatever the status, a disk that begins
/// with a magic is as it was.
pub fn format_journals<D: Disk>(out_disk: &mut D, in_disk: &mut D) -> Status
    ensures formats { Formats D.told D.may_leave D.faults (record { outbox = out_disk.old; inbox = in_disk.old }) (record { outbox = out_disk.new; inbox = in_disk.new }) result }
    ensures out_kept { KeepsJournal D.told D.may_leave out_disk.old out_disk.new }
    ensures in_kept { KeepsJournal D.told D.may_leave in_disk.old in_disk.new }
    ensures out_within { KeepsBehindHeader D.may_leave out_disk.old out_disk.new }
    ensures in_within { KeepsBehindHeader D.may_leave in_disk.old in_disk.new }
    ensures quiet { result ≡ Status.Done → (D.faults out_disk.new ≡ D.faults out_disk.old) × (D.faults in_disk.new ≡ D.faults in_disk.old) }
    ensures none_fell { NoneFell (disk_counts (D.faults out_disk.old) (D.faults in_disk.old)) (disk_counts (D.faults out_disk.new) (D.faults in_disk.new)) }
    ensures cause { IsCaused (disk_counts (D.faults out_disk.old) (D.faults in_disk.old)) (disk_counts (D.faults out_disk.new) (D.faults in_disk.new)) result }
{
    if let Err(fault) = format(out_disk) {
        return refusal(Which::Outbox, fault);
    }
    match format(in_disk) {
        Ok(()) => Status::Done,
        Err(fault) => refusal(Which::Inbox, fault),
    }
}

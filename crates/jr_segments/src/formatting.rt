//! Making an empty journal.

ghost use Rattle.std.specs.Prelude.{◌≡◌, ◌≢◌, ◌⊎◌, ℕ, ◌≤◌, List, [], ◌↔◌, length, take, Err, IfOk, OnOk, IsErrOf, IsTrue};
ghost use Rattle.std.specs.Option.{ForSome};
ghost use Rattle.gw_outside.specs.Disk.{Follows, LeavesSame, Torn};
ghost use Rattle.gw_outside.specs.Faults.{HasCause, HasRisen};
ghost use Rattle.jr_record.specs.Images.{header as plain_header, magic as plain_magic};
ghost use Rattle.jr_record.specs.declared.faults.FormatFault.TheVariants.{Already, Fault};
ghost use Rattle.jr_dated.specs.Images.{magic, IsJournal};

use gw_outside::{Disk, Failed};
use jr_record::FormatFault;

/// Makes an empty journal of format 2 on the disk. The magic's first byte is written last, behind a sync: until then the
/// disk is no journal.
///
/// # Errors
/// `Already` exactly where the disk begins with the magic of format 2 or of format 1. `Fault` where a call of the disk failed: its
/// first 17 bytes may hold anything, and the rest is as before. A disk that begins with a magic is never written.
pub fn format<D: Disk>(disk: &mut D) -> Result<(), FormatFault>
    ensures ok { OnOk result ((image : List ℕ) → D.may_leave disk.new image → IsJournal image []) }
    ensures fresh { OnOk result (ForSome (D.told disk.old) (λ content. (take 8 content ≢ magic) × (take 8 content ≢ plain_magic))) }
    ensures already { IsErrOf result Already → ForSome (D.told disk.old) (λ content. (take 8 content ≡ magic) ⊎ (take 8 content ≡ plain_magic)) }
    ensures already_content { IsErrOf result Already → D.told disk.new ≡ D.told disk.old }
    ensures already_images { IsErrOf result Already → LeavesSame (D.may_leave disk.old) (D.may_leave disk.new) }
    ensures cause { IsErrOf result Fault → HasRisen (D.faults disk.old) (D.faults disk.new) }
    ensures used { ForSome (D.told disk.old) (λ content. (take 8 content ≡ magic) ⊎ (take 8 content ≡ plain_magic) → D.told disk.new ≡ D.told disk.old) }
    ensures used_images { ForSome (D.told disk.old) (λ content. (take 8 content ≡ magic) ⊎ (take 8 content ≡ plain_magic) → LeavesSame (D.may_leave disk.old) (D.may_leave disk.new)) }
    ensures images { Follows (Torn 0 17) (D.may_leave disk.old) (D.may_leave disk.new) }
    ensures quiet { OnOk result (D.faults disk.new ≡ D.faults disk.old) }
    ensures never_falls { D.faults disk.old ≤ D.faults disk.new }
{
    if begins_with(disk, *b"FIXPJRN2")? {
        return Err(FormatFault::Already);
    }
    if begins_with(disk, *b"FIXPJRN1")? {
        return Err(FormatFault::Already);
    }
    write_header(disk)?;
    Ok(())
}

/// Whether the disk begins as a journal of format 1 does.
///
/// # Errors
/// `Failed` where the call of the disk failed.
pub fn is_old_format<D: Disk>(disk: &mut D) -> Result<bool, Failed>
    ensures value { IfOk result (λ old. ForSome (D.told disk.old) (λ content. IsTrue old ↔ (take 16 content ≡ plain_header))) }
    ensures content { D.told disk.new ≡ D.told disk.old }
    ensures images { LeavesSame (D.may_leave disk.old) (D.may_leave disk.new) }
    ensures cause { HasCause (D.faults disk.old) (D.faults disk.new) result }
{
    let mut front = [0; 16];
    let count = disk.read_at(0, &mut front)?;
    Ok(count == 16 && front == *b"FIXPJRN1\0\0\0\0\0\0\0\0")
}

/// Whether the disk begins with a magic.
fn begins_with<D: Disk>(disk: &mut D, magic: [u8; 8]) -> Result<bool, Failed>
    ensures value { IfOk result (λ found. ForSome (D.told disk.old) (λ content. IsTrue found ↔ (take 8 content ≡ magic))) }
    ensures content { D.told disk.new ≡ D.told disk.old }
    ensures images { LeavesSame (D.may_leave disk.old) (D.may_leave disk.new) }
    ensures cause { HasCause (D.faults disk.old) (D.faults disk.new) result }
{
    let mut front = [0; 8];
    let count = disk.read_at(0, &mut front)?;
    Ok(count == 8 && front == magic)
}

/// Writes the header with 0 in place of its first byte and the closed byte behind it, and then its first byte.
fn write_header<D: Disk>(disk: &mut D) -> Result<(), Failed>
    ensures ok { OnOk result ((image : List ℕ) → D.may_leave disk.new image → IsJournal image []) }
    ensures images { Follows (Torn 0 17) (D.may_leave disk.old) (D.may_leave disk.new) }
    ensures cause { HasCause (D.faults disk.old) (D.faults disk.new) result }
{
    disk.write_at(0, b"\0IXPJRN2\0\0\0\0\0\0\0\0\0")?;
    disk.sync()?;
    disk.write_at(0, b"F")?;
    disk.sync()?;
    Ok(())
}

//! What stands at the front of the disk that a journal is moved to, and its first byte made 0.

ghost use Rattle.std.specs.Prelude.{◌≡◌, ◌≤◌, ◌<◌, ℕ, List, [], ◌∷◌, length, take, IfOk, OnOk, OnErr};
ghost use Rattle.std.specs.Option.{ForSome};
ghost use Rattle.gw_outside.specs.Disk.{IsAllLeft, LeavesSame};
ghost use Rattle.gw_outside.specs.Faults.{HasCause};
ghost use Rattle.jr_log.specs.Fresh.{AllCleared, IsFresh, IsSeen};

use gw_outside::{Disk, Failed};

/// What stands at the front of a disk.
#[derive(Clone, Copy)]
pub enum Seen {
    /// 16 bytes or more, of which the first is not 0.
    Used,
    /// A first byte that is 0.
    Cleared,
    /// No byte, or fewer than 16 of which the first is not 0.
    Short,
}

/// What stands at the front of the disk.
pub fn look<D: Disk>(disk: &mut D) -> Result<Seen, Failed>
    ensures seen { IfOk result (λ seen. ForSome (D.told disk.old) (IsSeen seen)) }
    ensures content { D.told disk.new ≡ D.told disk.old }
    ensures images { LeavesSame (D.may_leave disk.old) (D.may_leave disk.new) }
    ensures cause { HasCause (D.faults disk.old) (D.faults disk.new) result }
{
    let mut front = [0; 16];
    let count = disk.read_at(0, &mut front)?;
    if count == 0 {
        return Ok(Seen::Short);
    }
    if front[0] == 0 {
        return Ok(Seen::Cleared);
    }
    if count == 16 {
        Ok(Seen::Used)
    } else {
        Ok(Seen::Short)
    }
}

/// Makes the first byte of a short disk 0.
///
/// # Errors
/// `Failed` where a call of the disk failed; what a stop leaves is fresh all the same.
pub fn clear<D: Disk>(disk: &mut D) -> Result<(), Failed>
    requires short { ForSome (D.told disk.old) (λ content. length content < 16) }
    requires settled { IsAllLeft (D.told disk.old) (D.may_leave disk.old) }
    ensures cleared { OnOk result (AllCleared (D.may_leave disk.new)) }
    ensures fresh { (image : List ℕ) → D.may_leave disk.new image → IsFresh image }
    ensures cause { HasCause (D.faults disk.old) (D.faults disk.new) result }
{
    disk.write_at(0, &[0])?;
    disk.sync()?;
    Ok(())
}

//! A disk: one content that is read and written at places, and made to outlast a stop by a sync. What it tells of the
//! content, and of what a stop may leave, is optional: memory tells it, files do not.

ghost use Rattle.std.specs.Prelude.{◌≡◌, ℕ, ◌+◌, ◌<◌, ◌≤◌, ◌^◌, List, Option, None, Some, length, is_some, IsErr, IfOk, IfSome, OnOk, OnErr};
ghost use Rattle.std.specs.Option.{ForSome, option_map};
ghost use Rattle.gw_outside.specs.Disk.{Follows, IsAllLeft, LeavesSame, ReadsAt, Torn, written};
ghost use Rattle.gw_outside.specs.Faults.{HasCause};

use crate::faults::Failed;

/// A disk of at most 2^40 bytes.
pub trait Disk {
    /// The bytes that a read gives, or `None` where it does not tell them.
    ghost told: { Self → Option (List ℕ) };

    /// Whether a stop now may leave these bytes. A disk that tells nothing leaves none.
    ghost may_leave: { Self → List ℕ → Type 0 };

    /// How many calls have failed; it never falls.
    ghost faults: { Self → ℕ };

    /// The number of bytes that the disk holds, at most 2^40.
    ///
    /// # Errors
    /// `Failed` where the device failed.
    fn length(&mut self) -> Result<u64, Failed>
        ensures within { IfOk result (λ n. n ≤ 2 ^ 40) }
        ensures value { IfOk result (λ n. IfSome (told self.old) (λ content. n ≡ length content)) }
        ensures content { told self.new ≡ told self.old }
        ensures images { LeavesSame (may_leave self.old) (may_leave self.new) }
        ensures cause { HasCause (faults self.old) (faults self.new) result };

    /// Gives the bytes from the place `at` on into the front of `into`, as many as there are, and how many: 0 at the
    /// content's end and past it. Nothing is claimed of what `into` has behind them, or at an error.
    ///
    /// # Errors
    /// `Failed` where the device failed.
    fn read_at(&mut self, at: u64, into: &mut [u8]) -> Result<usize, Failed>
        ensures count { IfOk result (λ n. n ≤ length into.new) }
        ensures bytes { IfOk result (λ n. IfSome (told self.old) (λ content. ReadsAt content at into.new n)) }
        ensures content { told self.new ≡ told self.old }
        ensures images { LeavesSame (may_leave self.old) (may_leave self.new) }
        ensures cause { HasCause (faults self.old) (faults self.new) result };

    /// Writes `bytes` from the place `at` on, over what stands there and past the content's end. Until a sync, a stop
    /// may leave any bytes in the range written.
    ///
    /// # Errors
    /// `Failed` where the device failed, has no room, or would pass 2^40 bytes: the last changes nothing. Otherwise a
    /// stop may leave any bytes in the range all the same.
    fn write_at(&mut self, at: u64, bytes: &[u8]) -> Result<(), Failed>
        requires { ForSome (told self.old) (λ content. at ≤ length content) }
        ensures content { OnOk result (told self.new ≡ option_map (written at bytes.now) (told self.old)) }
        ensures tells { is_some (told self.new) ≡ is_some (told self.old) }
        ensures images { Follows (Torn at (length bytes.now)) (may_leave self.old) (may_leave self.new) }
        ensures limit { 2 ^ 40 < at + length bytes.now → IsErr result }
        ensures limit_content { 2 ^ 40 < at + length bytes.now → told self.new ≡ told self.old }
        ensures limit_images { 2 ^ 40 < at + length bytes.now → LeavesSame (may_leave self.old) (may_leave self.new) }
        ensures cause { HasCause (faults self.old) (faults self.new) result };

    /// After it, a stop leaves what a read gives.
    ///
    /// # Errors
    /// `Failed` where the device failed: a stop may leave what it might have left before.
    fn sync(&mut self) -> Result<(), Failed>
        ensures content { told self.new ≡ told self.old }
        ensures settled { OnOk result (IsAllLeft (told self.old) (may_leave self.new)) }
        ensures images { OnErr result (LeavesSame (may_leave self.old) (may_leave self.new)) }
        ensures cause { HasCause (faults self.old) (faults self.new) result };

    /// What a read gives is one of the contents that a stop may leave.
    ghost told_is_left: { (disk : Self) (content : List ℕ) → told disk ≡ Some content → may_leave disk content };

    /// A disk that tells nothing of its content tells nothing of what a stop may leave.
    ghost untold: { (disk : Self) (content : List ℕ) → told disk ≡ None → may_leave disk content → ⊥ };

    /// A stop leaves at most 2^40 bytes.
    ghost limited: { (disk : Self) (content : List ℕ) → may_leave disk content → length content ≤ 2 ^ 40 };
}

//! A file that grows. What one tells of its content is optional, as for every source: memory tells it, files do not.

ghost use Rattle.std.specs.Prelude.{◌≡◌, ◌^◌, ◌<◌, ◌≤◌, ℕ, Bool, false, true, List, Option, Some, None, Ok, length, drop, IfOk, IfSome, OnErr};
ghost use Rattle.std.specs.Option.{ForSome, option_map};
ghost use Rattle.gw_outside.specs.Faults.{HasCause, HasRisen};
ghost use Rattle.gw_growing.specs.Growing.{HasFront};

use gw_outside::{Failed, Source};

/// A file that others write while it is read, and that is looked at time and again. A look is a source of its own: what it gives is what stood in
/// the file at one moment, as far as the file tells its content; of a file of the operating system each read is of its own moment.
pub trait Growing {
    /// What a look gives.
    type Seen: Source;

    /// What it held when it was looked at last, or when it was made; `None` where it does not tell that.
    ghost told: { Self → Option (List ℕ) };

    /// Whether, at a look, other bytes stood in front of its place than at the look before.
    ghost has_changed: { Self → Bool };

    /// How many calls have failed, its looks' among them that came back; it never falls.
    ghost faults: { Self → ℕ };

    /// Looks at it again, for what stands in it from the place `at` on, in bytes from 0. `None` where other bytes stand in front of that place than
    /// at the look before; not each such change need be seen. It may wait a short while first.
    ///
    /// # Errors
    /// `Failed` where the device failed: it has not looked.
    fn look(&mut self, at: u64) -> Result<Option<Self::Seen>, Failed>
        ensures seen { IfOk result (λ found. IfSome found (λ seen. Self.Seen.left seen ≡ option_map (drop at) (told self.new))) }
        ensures fresh { IfOk result (λ found. IfSome found (λ seen. Self.Seen.faults seen ≡ 0)) }
        ensures kept { has_changed self.new ≡ false → ForSome (told self.new) (HasFront at (told self.old)) }
        ensures once { has_changed self.new ≡ false → has_changed self.old ≡ false }
        ensures changed { result ≡ Ok None → has_changed self.new ≡ true }
        ensures err { OnErr result (told self.new ≡ told self.old) }
        ensures cause { HasCause (faults self.old) (faults self.new) result };

    /// Takes back what a look gave, and counts its faults. It takes no memory and cannot fail.
    fn back(&mut self, seen: Self::Seen)
        ensures told { told self.new ≡ told self.old }
        ensures has_changed { has_changed self.new ≡ has_changed self.old }
        ensures counted { faults self.old ≤ faults self.new }
        ensures same { Self.Seen.faults seen ≡ 0 → faults self.new ≡ faults self.old }
        ensures risen { HasRisen 0 (Self.Seen.faults seen) → HasRisen (faults self.old) (faults self.new) };

    /// It holds less than 2^63 bytes.
    ghost limited: { (file : Self) (content : List ℕ) → told file ≡ Some content → length content < 2 ^ 63 };
}

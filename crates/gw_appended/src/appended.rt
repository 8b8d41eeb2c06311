//! A sink that appends. What it tells of its content is optional, as for every sink: memory tells it, files do not.

ghost use Rattle.std.specs.Prelude.{◌≡◌, ◌≤◌, ◌^◌, Bool, false, length, take, IfOk, IfSome, IfNone, OnOk, OnErr};
ghost use Rattle.std.specs.Option.{ForSome, option_map};
ghost use Rattle.gw_outside.specs.Disk.{ReadsAt};
ghost use Rattle.gw_outside.specs.Faults.{HasCause};

use gw_outside::{Failed, Sink};

/// A sink that may keep what it takes from run to run. What it has taken, in the words of `Sink`, is what it holds: a push grows it at
/// its end, a cut takes an end away, and nothing else changes it.
pub trait Appended: Sink {
    /// Whether each sink of its kind keeps what it takes.
    ghost keeps: { Bool };

    /// How many bytes it holds, at most 2^40; None where it keeps nothing that could be read again, as a pipe or a terminal.
    ///
    /// # Errors
    /// `Failed` where the device failed.
    fn length(&mut self) -> Result<Option<u64>, Failed>
        ensures within { IfOk result (λ size. IfSome size (λ n. n ≤ 2 ^ 40)) }
        ensures value { IfOk result (λ size. IfSome size (λ n. IfSome (Self.taken self.old) (λ content. n ≡ length content))) }
        ensures kept { IfOk result (λ size. IfNone size (keeps ≡ false)) }
        ensures content { Self.taken self.new ≡ Self.taken self.old }
        ensures cause { HasCause (Self.faults self.old) (Self.faults self.new) result };

    /// Gives the bytes from the place `at` on into the front of `into`, as many as there are, and how many: 0 at the content's end and
    /// past it. Nothing is claimed of what `into` has behind them, or at an error.
    ///
    /// # Errors
    /// `Failed` where the device failed.
    fn read_at(&mut self, at: u64, into: &mut [u8]) -> Result<usize, Failed>
        ensures count { IfOk result (λ n. n ≤ length into.new) }
        ensures bytes { IfOk result (λ n. IfSome (Self.taken self.old) (λ content. ReadsAt content at into.new n)) }
        ensures content { Self.taken self.new ≡ Self.taken self.old }
        ensures cause { HasCause (Self.faults self.old) (Self.faults self.new) result };

    /// Takes away what stands behind the first `size` bytes.
    ///
    /// # Errors
    /// `Failed` where the device failed: it holds what it held.
    fn cut(&mut self, size: u64) -> Result<(), Failed>
        requires within { ForSome (Self.taken self.old) (λ content. size ≤ length content) }
        ensures content { OnOk result (Self.taken self.new ≡ option_map (take size) (Self.taken self.old)) }
        ensures err { OnErr result (Self.taken self.new ≡ Self.taken self.old) }
        ensures cause { HasCause (Self.faults self.old) (Self.faults self.new) result };
}

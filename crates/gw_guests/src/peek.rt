//! A link whose front can be looked at.

ghost use Rattle.std.specs.Prelude.{◌≡◌, ◌≤◌, length, take, IfOk, IfSome};
ghost use Rattle.gw_outside.specs.Faults.{HasCause};

use gw_links::Link;
use gw_outside::Failed;

/// A link of which the first bytes that wait can be looked at, before it is known whose it is.
pub trait Peek: Link {
    /// Copies the first of the bytes that wait into the front of `into`, as many as fit, and answers how many. None of them is taken: a receive
    /// gives them again. It does not wait. Nothing is claimed of what `into` has behind them.
    ///
    /// # Errors
    /// `Failed` where the link failed: it is not to be used again.
    fn peek(&mut self, into: &mut [u8]) -> Result<usize, Failed>
        ensures count { IfOk result (λ n. n ≤ length into.new) }
        ensures front { IfOk result (λ n. IfSome (Self.told self.old) (λ t. take n into.new ≡ take (length into.new) t.waits)) }
        ensures told { Self.told self.new ≡ Self.told self.old }
        ensures carried { Self.carried self.new ≡ Self.carried self.old }
        ensures stays { Self.place self.new ≡ Self.place self.old }
        ensures cause { HasCause (Self.faults self.old) (Self.faults self.new) result };
}

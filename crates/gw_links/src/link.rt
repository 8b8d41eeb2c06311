//! A link: the bytes of one connection, both ways. What one tells of them is optional: memory tells it, sockets do not.

ghost use Rattle.std.specs.Prelude.{◌≡◌, ℕ, Bool, [], ◌<◌, ◌≤◌, IsTrue, Option, length, take, IfOk, IfSome, OnErr};
ghost use Rattle.gw_outside.specs.Faults.{HasCause};
ghost use Rattle.gw_links.specs.Links.{Carried, IsAnswer, IsWithin, LinkTold, Moved, TookFront, gave, gives_lesser};

use gw_outside::Failed;

/// What a receive found.
#[derive(Clone, Copy, Debug)]
pub enum Got {
    /// So many bytes, at least one.
    Bytes(usize),
    /// Nothing waits now.
    Quiet,
    /// No byte will come.
    End,
}

/// One connection.
pub trait Link {
    /// What it tells of its bytes, or `None` where it does not.
    ghost told: { Self → Option LinkTold };

    /// All bytes that it has given and taken since its connection began, or `None` where it does not tell them.
    ghost carried: { Self → Option Carried };

    /// Whether a receive gives all that fits: the lesser of the piece and what waits.
    ghost eager: { Bool };

    /// The type of what its calls never change.
    ghost Place: { Type 0 };

    /// Where it stands: a link that is lent by something else stays an end of that same thing.
    ghost place: { Self → Place };

    /// How many calls have failed; it never falls.
    ghost faults: { Self → ℕ };

    /// Gives the next bytes into the front of `into`, and how many. Nothing is claimed of what `into` has behind them, or
    /// where no bytes came. Where nothing is there it may wait, for `patience` milliseconds at most. No clause speaks of that: how
    /// long a receive waits is free.
    ///
    /// # Errors
    /// `Failed` where the link failed: nothing was given, and the link is not to be used again.
    fn recv(&mut self, into: &mut [u8], patience: u64) -> Result<Got, Failed>
        requires { 0 < length into.old }
        ensures count { IfOk result (λ got. IsWithin got (length into.new)) }
        ensures moves { Moved (told self.old) (told self.new) (carried self.old) (carried self.new) (gave result into.new) [] }
        ensures answer { IfOk result (λ got. IfSome (told self.old) (λ t. IsAnswer t got)) }
        ensures lesser { IsTrue eager → IfOk result (λ got. IfSome (told self.old) (λ t. gives_lesser t (length into.new) got)) }
        ensures stays { place self.new ≡ place self.old }
        ensures cause { HasCause (faults self.old) (faults self.new) result };

    /// Takes bytes from the front of `bytes`, and answers how many: 0 where it takes none now.
    ///
    /// # Errors
    /// `Failed` where the link failed: it may have taken some bytes from the front, and is not to be used again.
    fn send(&mut self, bytes: &[u8]) -> Result<usize, Failed>
        ensures count { IfOk result (λ n. n ≤ length bytes.now) }
        ensures moves { IfOk result (λ n. Moved (told self.old) (told self.new) (carried self.old) (carried self.new) [] (take n bytes.now)) }
        ensures front { OnErr result (TookFront (told self.old) (told self.new) (carried self.old) (carried self.new) bytes.now) }
        ensures some { IfOk result (λ n. IfSome (told self.old) (λ t. 0 < length bytes.now → 0 < t.room → 0 < n)) }
        ensures stays { place self.new ≡ place self.old }
        ensures cause { HasCause (faults self.old) (faults self.new) result };
}

//! Byte sources and sinks. What one tells of its content is optional: memory tells it, files and sockets do not.

ghost use Rattle.std.specs.Prelude.{◌≡◌, ℕ, ◌<◌, ◌≤◌, List, Option, length, IfOk, OnOk, OnErr};
ghost use Rattle.std.specs.Io.KnownBytes.{Appends, ReadConsumes, WriteAppends};
ghost use Rattle.gw_outside.specs.Faults.{HasCause, TakesFront};

use crate::faults::Failed;

/// A source of bytes.
pub trait Source {
    /// The bytes that it has not given yet, or `None` where it does not tell them.
    ghost left: { Self → Option (List ℕ) };

    /// How many calls have failed; it never falls.
    ghost faults: { Self → ℕ };

    /// Gives the next bytes into the front of `into`, and how many; 0 is the end of the input. Nothing is claimed of
    /// what `into` has behind them, or at an error.
    ///
    /// # Errors
    /// `Failed` where the device failed: nothing was given.
    fn pull(&mut self, into: &mut [u8]) -> Result<usize, Failed>
        requires { 0 < length into.old }
        ensures count { IfOk result (λ n. n ≤ length into.new) }
        ensures bytes { ReadConsumes (left self.old) (left self.new) result into.new }
        ensures cause { HasCause (faults self.old) (faults self.new) result };
}

/// A sink of bytes.
pub trait Sink {
    /// The bytes that it has taken, or `None` where it does not tell them.
    ghost taken: { Self → Option (List ℕ) };

    /// How many calls have failed; it never falls.
    ghost faults: { Self → ℕ };

    /// Takes bytes from the front of `bytes`, and answers how many: at least one where there are any.
    ///
    /// # Errors
    /// `Failed` where the device failed or has no room: nothing was taken.
    fn push(&mut self, bytes: &[u8]) -> Result<usize, Failed>
        ensures count { IfOk result (λ n. n ≤ length bytes.now) }
        ensures some { 0 < length bytes.now → IfOk result (λ n. 0 < n) }
        ensures bytes { WriteAppends (taken self.old) (taken self.new) result bytes.now }
        ensures cause { HasCause (faults self.old) (faults self.new) result };
}

/// Pushes all of `bytes`.
///
/// # Errors
/// `Failed` where the sink failed: it has taken some bytes from the front.
pub fn push_all<K: Sink>(sink: &mut K, bytes: &[u8]) -> Result<(), Failed>
    ensures ok { OnOk result (Appends (K.taken sink.old) (K.taken sink.new) bytes.now) }
    ensures err { OnErr result (TakesFront (K.taken sink.old) (K.taken sink.new) bytes.now) }
    ensures cause { HasCause (K.faults sink.old) (K.faults sink.new) result }
{
    let mut rest = bytes;
    while !rest.is_empty() {
        let taken = sink.push(rest)?;
        let (_, after) = rest.split_at(taken);
        rest = after;
    }
    Ok(())
}

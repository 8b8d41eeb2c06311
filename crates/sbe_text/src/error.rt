//! Why a text is no message.

ghost use Rattle.std.specs.Prelude.{◌≡◌};
ghost use Rattle.sbe_text.specs.declared.error.Refusal.TheVariants.{Memory};

use std::alloc::{AllocError, AllocFailed};

/// Why a text is no message.
#[derive(Clone, Copy)]
pub enum TextError {
    /// The line of this number, from 1, is the first that is not as it has to be; it is one past the last where the
    /// text ends too early.
    Line(u64),
    /// There is not enough memory.
    Memory,
}

/// Why lines are not read on. Nothing is counted until a line has to be named: who reads another form of the text next has no
/// use for a number.
#[derive(Clone, Copy)]
pub enum Refusal<'a> {
    /// The first line of this text is refused, which is left of the one that was read; it is empty where that ends too early.
    At(&'a [u8]),
    /// There is not enough memory.
    Memory,
}

impl<'a> From<AllocError> for Refusal<'a> {
    ghost from_gives = { λ _ e. e ≡ Memory };

    fn from(_e: AllocError) -> Refusal<'a> {
        Refusal::Memory
    }
}

impl<'a, T: Drop> From<AllocFailed<T>> for Refusal<'a> {
    ghost from_gives = { λ _ e. e ≡ Memory };

    fn from(_e: AllocFailed<T>) -> Refusal<'a> {
        Refusal::Memory
    }
}

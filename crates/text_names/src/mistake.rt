//! What may be wrong with a value that a person wrote.

ghost use Rattle.std.specs.Prelude.{◌≡◌};
ghost use Rattle.text_names.specs.declared.mistake.NarrowError.TheVariants as error;
ghost use Rattle.text_names.specs.declared.mistake.Slip.TheVariants as slip;

use std::alloc::{AllocError, AllocFailed};

/// What is wrong with a word.
#[derive(Clone, Copy, PartialEq, Eq)]
pub enum Wrong {
    /// No value of the enum has this name.
    Value,
    /// No choice of the set has this name.
    Choice,
    /// The choice stands twice.
    Twice,
    /// It is not one character in quotes.
    Single,
    /// What stands behind a backslash is none of `"`, `\`, `n`, `r`, `t`, `x` and two hexadecimal digits.
    Escape,
    /// No quote ends the text.
    Open,
    /// Something stands behind the quote that ends the text.
    Behind,
}

// Why there is no strict value.
#[derive(Clone, Copy)]
pub(crate) enum Slip<'a> {
    Mistake(Wrong, &'a [u8]),
    Memory,
}

impl<'a> From<AllocError> for Slip<'a> {
    ghost from_gives = { λ _ e. e ≡ slip.Memory };

    fn from(_e: AllocError) -> Slip<'a> {
        Slip::Memory
    }
}

/// Why a text is not narrowed.
#[derive(Clone, Copy)]
pub enum NarrowError<'a> {
    /// A value of the line of this number, from 1, is wrong.
    Mistake {
        /// The line.
        line: u64,
        /// What is wrong.
        wrong: Wrong,
        /// The word that is.
        word: &'a [u8],
    },
    /// There is not enough memory.
    Memory,
}

impl<'a> From<AllocError> for NarrowError<'a> {
    ghost from_gives = { λ _ e. e ≡ error.Memory };

    fn from(_e: AllocError) -> NarrowError<'a> {
        NarrowError::Memory
    }
}

impl<'a, T: Drop> From<AllocFailed<T>> for NarrowError<'a> {
    ghost from_gives = { λ _ e. e ≡ error.Memory };

    fn from(_e: AllocFailed<T>) -> NarrowError<'a> {
        NarrowError::Memory
    }
}

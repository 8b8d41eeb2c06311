//! Why there is no decoded message.

ghost use Rattle.std.specs.Prelude.{◌≡◌};
ghost use Rattle.sbe_decode.specs.declared.error.DecodeError.TheVariants.{Fault, Memory};

use sbe_grammar::DecodeFault;
use std::alloc::{AllocError, AllocFailed};

/// Why there is no decoded message.
#[derive(Drop)]
pub enum DecodeError {
    /// The bytes spell no message; this is their first fault.
    Fault(DecodeFault),
    /// There is not enough memory.
    Memory,
}

impl From<DecodeFault> for DecodeError {
    ghost from_gives = { λ f e. e ≡ Fault f };

    fn from(fault: DecodeFault) -> DecodeError {
        DecodeError::Fault(fault)
    }
}

impl From<AllocError> for DecodeError {
    ghost from_gives = { λ _ e. e ≡ Memory };

    fn from(_e: AllocError) -> DecodeError {
        DecodeError::Memory
    }
}

impl<T: Drop> From<AllocFailed<T>> for DecodeError {
    ghost from_gives = { λ _ e. e ≡ Memory };

    fn from(_e: AllocFailed<T>) -> DecodeError {
        DecodeError::Memory
    }
}

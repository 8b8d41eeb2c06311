//! Why a message is not written.

ghost use Rattle.std.specs.Prelude.{◌≡◌, Option, Some, List, [], ◌∷◌, IfOk};
ghost use Rattle.sbe_value.specs.declared.path.Step.TheVariants.{Key, At};
ghost use Rattle.sbe_encode.specs.declared.fault.EncodeError.TheVariants.{Fault, Memory};
ghost use Rattle.sbe_encode.specs.declared.fault.EncodeFault.TheVariants.{Shape, Range};
ghost use Rattle.sbe_encode.specs.declared.fault.EncodeFault.{EncodeFault};
ghost use Rattle.sbe_encode.specs.Faults.{under, fault_under};
ghost use Rattle.sbe_encode.specs.Writes.{Tells};

use sbe_value::{Bytes, Path, Step};
use std::alloc::{AllocError, AllocFailed, Global};

/// The first fault of a message that may not be written, with the path of its element; a block's path is that of
/// its group and entry, and empty for the root.
#[derive(Debug, Drop)]
pub enum EncodeFault {
    /// The plan has no such template; a block has the wrong number of items, groups or data; or an element is absent,
    /// of another kind or length than the plan gives it, or of a count or length that its type cannot hold.
    Shape {
        /// The element or the block.
        path: Path,
    },
    /// A value out of its range: a number or a character below the least or above the greatest, an enum's number that
    /// is not listed, or a set's with a bit that is not named.
    Range {
        /// The item.
        path: Path,
    },
    /// The message's bytes are more than 16,384.
    TooLong {
        /// How many there are.
        length: u64,
    },
}

/// Why a message is not written.
#[derive(Drop)]
pub enum EncodeError {
    /// The message may not be written; this is its first fault.
    Fault(EncodeFault),
    /// There is not enough memory.
    Memory,
}

impl From<AllocError> for EncodeError {
    ghost use Rattle.std.specs.Prelude.{◌≡◌};

    ghost from_gives = { λ _ e. e ≡ Memory };

    fn from(_e: AllocError) -> EncodeError {
        EncodeError::Memory
    }
}

impl<T: Drop> From<AllocFailed<T>> for EncodeError {
    ghost use Rattle.std.specs.Prelude.{◌≡◌};

    ghost from_gives = { λ _ e. e ≡ Memory };

    fn from(_e: AllocFailed<T>) -> EncodeError {
        EncodeError::Memory
    }
}

// The path of an element of a block.
fn path_to(alloc: Global, name: &Bytes) -> Result<Path, AllocError>
    ensures { IfOk result (λ path. path ≡ Key name.now ∷ []) }
{
    let mut path = Path::new(alloc);
    path.push(Step::Key(name.copy(alloc)?))?;
    Ok(path)
}

/// An element of a block is not of its shape.
pub fn shape_at(alloc: Global, name: &Bytes) -> EncodeError
    ensures { Tells result (Some (Shape (Key name.now ∷ []))) }
{
    match path_to(alloc, name) {
        Ok(path) => EncodeError::Fault(EncodeFault::Shape { path }),
        Err(_) => EncodeError::Memory,
    }
}

/// A block is not of its shape.
pub fn shape_here(alloc: Global) -> EncodeError
    ensures { Tells result (Some (Shape [])) }
{
    EncodeError::Fault(EncodeFault::Shape {
        path: Path::new(alloc),
    })
}

/// An item of a block is out of its range.
pub fn range_at(alloc: Global, name: &Bytes) -> EncodeError
    ensures { Tells result (Some (Range (Key name.now ∷ []))) }
{
    match path_to(alloc, name) {
        Ok(path) => EncodeError::Fault(EncodeFault::Range { path }),
        Err(_) => EncodeError::Memory,
    }
}

// The path of what stands in an entry of a group.
fn path_under(alloc: Global, name: &Bytes, at: u64, path: Path) -> Result<Path, AllocError>
    ensures { IfOk result (λ whole. whole ≡ Key name.now ∷ (At at ∷ path)) }
{
    let mut steps: Vec<Step> = path.into();
    steps.insert(0, Step::At(at))?;
    steps.insert(0, Step::Key(name.copy(alloc)?))?;
    Ok(Path::from(steps))
}

fn fault_under(
    alloc: Global,
    name: &Bytes,
    at: u64,
    fault: EncodeFault,
) -> Result<EncodeFault, AllocError>
    ensures { IfOk result (λ f. f ≡ fault_under name.now at fault) }
{
    match fault {
        EncodeFault::Shape { path } => {
            let path = path_under(alloc, name, at, path)?;
            Ok(EncodeFault::Shape { path })
        }
        EncodeFault::Range { path } => {
            let path = path_under(alloc, name, at, path)?;
            Ok(EncodeFault::Range { path })
        }
        EncodeFault::TooLong { length } => Ok(EncodeFault::TooLong { length }),
    }
}

/// The error of what stands in an entry of a group, as one of the block that has the group.
pub fn error_under(alloc: Global, name: &Bytes, at: u64, error: EncodeError) -> EncodeError
    ensures { (told : Option EncodeFault) → Tells error told → Tells result (under name.now at told) }
{
    match error {
        EncodeError::Memory => EncodeError::Memory,
        EncodeError::Fault(fault) => match fault_under(alloc, name, at, fault) {
            Ok(fault) => EncodeError::Fault(fault),
            Err(_) => EncodeError::Memory,
        },
    }
}

//! Why a text was refused, and where.

ghost use Rattle.std.specs.Prelude.{◌≡◌, IfOk, [], ◌∷◌};
ghost use Rattle.toml_walk.specs.Reading.{IsFault, deepened, is_memory};

use sbe_value::{Path, Step};
use std::alloc::{AllocError, Global};

/// The first thing that is wrong with a text, in the order in which its keys are visited.
#[derive(Debug, Drop)]
pub enum TomlFault {
    /// It is no TOML text.
    Text,
    /// A key that has to be there is absent.
    Missing(Path),
    /// A value is of another kind than its key wants.
    WrongKind(Path),
    /// A table has a key that it does not know: the least one by its bytes.
    UnknownKey(Path),
    /// A value is none that its key admits.
    Range(Path),
    /// There was not enough memory to tell.
    Memory,
}

impl From<AllocError> for TomlFault {
    ghost use Rattle.std.specs.Prelude.{◌≡◌};
    ghost use Rattle.toml_walk.specs.declared.fault.TomlFault.TheVariants.{Memory};

    ghost from_gives = { λ error fault. fault ≡ Memory };

    fn from(_error: AllocError) -> TomlFault {
        TomlFault::Memory
    }
}

impl TomlFault {
    /// Whether memory ran out.
    pub fn is_memory(&self) -> bool
        ensures { result ≡ is_memory self.now }
    {
        matches!(self, TomlFault::Memory)
    }
}

/// The path of one step further, in front of another.
fn in_front(step: Step, path: Path) -> Result<Path, AllocError>
    ensures { IfOk result (λ longer. longer ≡ step ∷ path) }
{
    let mut steps = Vec::from(path);
    steps.insert(0, step)?;
    Ok(Path::from(steps))
}

/// The fault with its path from one step further out.
pub fn deepened(step: Step, fault: TomlFault) -> TomlFault
    ensures { IsFault result (deepened step fault) }
{
    match fault {
        TomlFault::Missing(path) => match in_front(step, path) {
            Ok(path) => TomlFault::Missing(path),
            Err(_) => TomlFault::Memory,
        },
        TomlFault::WrongKind(path) => match in_front(step, path) {
            Ok(path) => TomlFault::WrongKind(path),
            Err(_) => TomlFault::Memory,
        },
        TomlFault::UnknownKey(path) => match in_front(step, path) {
            Ok(path) => TomlFault::UnknownKey(path),
            Err(_) => TomlFault::Memory,
        },
        TomlFault::Range(path) => match in_front(step, path) {
            Ok(path) => TomlFault::Range(path),
            Err(_) => TomlFault::Memory,
        },
        TomlFault::Text => TomlFault::Text,
        TomlFault::Memory => TomlFault::Memory,
    }
}

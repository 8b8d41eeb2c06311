//! How a place in a schema or a message is named for people.

ghost use Rattle.std.specs.Prelude.{◌≡◌, ◌↔◌, ◌++◌, IsTrue, IfOk, OnOk};
ghost use Rattle.sbe_value.specs.Equal.{step_eq};
ghost use Rattle.sbe_value.specs.PathText.{step_text, path_text};

use crate::Bytes;
use lists::{Element, List};
use std::alloc::{AllocError, Global};

/// One step on the way to a place.
#[derive(Debug, Drop)]
pub enum Step {
    /// To what stands under a key or a name.
    Key(Bytes),
    /// To a place in a list, counted from 0.
    At(u64),
}

impl PartialEq for Step {
    ghost use Rattle.std.specs.Prelude.{◌≡◌, ◌↔◌, IsTrue};
    ghost use Rattle.sbe_value.specs.Equal.{step_eq};
    ghost use Rattle.lists.specs.Exact.{partial_equivalence};
    ghost use Rattle.sbe_value.specs.Laws.{step_exact};

    ghost eq = { step_eq };

    ghost laws = { partial_equivalence step_eq step_exact };

    fn eq(&self, other: &Step) -> bool
        ensures exact { IsTrue result ↔ (self.now ≡ other.now) }
        ensures computed { result ≡ step_eq self.now other.now }
    {
        match (self, other) {
            (Step::Key(a), Step::Key(b)) => *a == *b,
            (Step::At(a), Step::At(b)) => *a == *b,
            _ => false,
        }
    }
}

impl Element for Step {
    ghost use Rattle.sbe_value.specs.Laws.{step_exact};

    fn copy(&self, alloc: Global) -> Result<Step, AllocError> {
        match self {
            Step::Key(key) => Ok(Step::Key(key.copy(alloc)?)),
            Step::At(place) => Ok(Step::At(*place)),
        }
    }

    ghost exact = { step_exact };
}

/// The steps from the outermost thing to a place; without steps it is the whole.
pub type Path = List<Step>;

/// The path as people read it: keys joined by dots, and `[i]` for a place in a list.
pub fn text_of_path(alloc: Global, path: &Path) -> Result<Bytes, AllocError>
    ensures { IfOk result (λ b. b ≡ path_text path.now) }
{
    let mut text = Bytes::new(alloc);
    let mut rest = path.as_slice();
    if let [Step::Key(key), others @ ..] = rest {
        text.extend_from_slice(key.as_slice())?;
        rest = others;
    }
    for step in rest {
        write_step(alloc, step, &mut text)?;
    }
    Ok(text)
}

// Writes a step behind others: a dot and the key, or the place in brackets.
fn write_step(alloc: Global, step: &Step, text: &mut Bytes) -> Result<(), AllocError>
    ensures { OnOk result (text.new ≡ text.old ++ step_text step.now) }
{
    match step {
        Step::Key(key) => {
            text.push(b'.')?;
            text.extend_from_slice(key.as_slice())
        }
        Step::At(place) => {
            let digits = format!(in alloc; "[{place}]")?;
            text.extend_from_slice(digits.as_bytes())
        }
    }
}

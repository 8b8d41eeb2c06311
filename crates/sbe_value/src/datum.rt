//! Variable-length data, and the list of a block's data.

ghost use Rattle.std.specs.Prelude.{◌≡◌, ◌↔◌, IsTrue, IfOk};
ghost use Rattle.sbe_value.specs.Equal.{datum_eq};

use crate::Bytes;
use lists::{Element, List};
use std::alloc::{AllocError, Global};

/// One variable-length data field of a block.
#[derive(Drop)]
pub enum Datum {
    /// The message's version does not have it.
    Absent,
    /// Its bytes.
    Present(Bytes),
}

impl PartialEq for Datum {
    ghost use Rattle.std.specs.Prelude.{◌≡◌, ◌↔◌, IsTrue};
    ghost use Rattle.sbe_value.specs.Equal.{datum_eq};
    ghost use Rattle.lists.specs.Exact.{partial_equivalence};
    ghost use Rattle.sbe_value.specs.Laws.{datum_exact};

    ghost eq = { datum_eq };

    ghost laws = { partial_equivalence datum_eq datum_exact };

    fn eq(&self, other: &Datum) -> bool
        ensures exact { IsTrue result ↔ (self.now ≡ other.now) }
        ensures computed { result ≡ datum_eq self.now other.now }
    {
        match (self, other) {
            (Datum::Absent, Datum::Absent) => true,
            (Datum::Present(a), Datum::Present(b)) => *a == *b,
            _ => false,
        }
    }
}

impl Element for Datum {
    ghost use Rattle.sbe_value.specs.Laws.{datum_exact};

    fn copy(&self, alloc: Global) -> Result<Datum, AllocError> {
        match self {
            Datum::Absent => Ok(Datum::Absent),
            Datum::Present(bytes) => Ok(Datum::Present(bytes.copy(alloc)?)),
        }
    }

    ghost exact = { datum_exact };
}

/// The variable-length data of a block in schema order.
pub type Datums = List<Datum>;

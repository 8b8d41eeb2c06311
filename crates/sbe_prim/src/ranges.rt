//! The numbers of a primitive that may be written where its type states no range.

ghost use Rattle.std.specs.Prelude.{◌≡◌};
ghost use Rattle.sbe_prim.specs.Ranges.{default_least_of, default_greatest_of};

use crate::{Primitive, greatest, least};

/// The least number that may be written by default (SBE 1.0, default ranges); 0 for a float or a double.
pub fn default_least(p: Primitive) -> i128
    ensures { result ≡ default_least_of p }
{
    match p {
        Primitive::Char => 0x20,
        Primitive::Int8 | Primitive::Int16 | Primitive::Int32 | Primitive::Int64 => least(p) + 1,
        _ => 0,
    }
}

/// The greatest number that may be written by default (SBE 1.0, default ranges); 0 for a float or a double.
pub fn default_greatest(p: Primitive) -> i128
    ensures { result ≡ default_greatest_of p }
{
    match p {
        Primitive::Char => 0x7e,
        Primitive::UInt8 | Primitive::UInt16 | Primitive::UInt32 | Primitive::UInt64 => {
            greatest(p) - 1
        }
        _ => greatest(p),
    }
}

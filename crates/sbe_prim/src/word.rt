//! The words by which a schema names the primitives, and back.

ghost use Rattle.std.specs.Prelude.{◌≡◌};
ghost use Rattle.sbe_prim.specs.Names.{primitive_named, first_named, word_of};

use crate::Primitive;

const PRIMITIVES: [Primitive; 11] = [
    Primitive::Char,
    Primitive::Int8,
    Primitive::Int16,
    Primitive::Int32,
    Primitive::Int64,
    Primitive::UInt8,
    Primitive::UInt16,
    Primitive::UInt32,
    Primitive::UInt64,
    Primitive::Float,
    Primitive::Double,
];

/// The word by which a schema names a primitive.
pub fn primitive_name(p: Primitive) -> &'static [u8]
    ensures { result.now ≡ word_of p }
{
    match p {
        Primitive::Char => b"char",
        Primitive::Int8 => b"int8",
        Primitive::Int16 => b"int16",
        Primitive::Int32 => b"int32",
        Primitive::Int64 => b"int64",
        Primitive::UInt8 => b"uint8",
        Primitive::UInt16 => b"uint16",
        Primitive::UInt32 => b"uint32",
        Primitive::UInt64 => b"uint64",
        Primitive::Float => b"float",
        Primitive::Double => b"double",
    }
}

/// The primitive of a name, if it is one's.
#[tactic(auto, unfolding(crate::specs::Names::primitive_named))]
pub fn find_primitive(name: &[u8]) -> Option<Primitive>
    ensures { result ≡ primitive_named name.now }
{
    find_among(&PRIMITIVES, name)
}

fn find_among(primitives: &[Primitive], name: &[u8]) -> Option<Primitive>
    ensures { result ≡ first_named name.now primitives.now }
{
    for p in primitives {
        if primitive_name(*p) == name {
            return Some(*p);
        }
    }
    None
}

//! The primitive types of Simple Binary Encoding 1.0: their names, sizes, ranges and
//! null values, and the numbers that their bytes spell in either byte order.
//! It stands on nothing but std.
#![tactic(auto)]

ghost use Rattle.std.specs.Prelude.{◌≡◌, ◌↔◌, IsTrue};
ghost use Rattle.sbe_prim.specs.Primitives.{size_of, null_of, least_of, greatest_of, is_integer, holds};

mod number;
mod ranges;
mod word;

pub use number::{read, reads_back, write, writes_back};
pub use ranges::{default_greatest, default_least};
pub use word::{find_primitive, primitive_name};

/// A primitive type (SBE 1.0, primitive encodings).
#[derive(Clone, Copy, PartialEq, Eq)]
pub enum Primitive {
    /// One character in one byte.
    Char,
    /// Two's complement in 1 byte.
    Int8,
    /// Two's complement in 2 bytes.
    Int16,
    /// Two's complement in 4 bytes.
    Int32,
    /// Two's complement in 8 bytes.
    Int64,
    /// Unsigned in 1 byte.
    UInt8,
    /// Unsigned in 2 bytes.
    UInt16,
    /// Unsigned in 4 bytes.
    UInt32,
    /// Unsigned in 8 bytes.
    UInt64,
    /// A binary floating point number in 4 bytes, carried as raw bytes.
    Float,
    /// A binary floating point number in 8 bytes, carried as raw bytes.
    Double,
}

/// The byte order of a schema's numbers (SBE 1.0, message schema attribute `byteOrder`).
#[derive(Debug, Clone, Copy, PartialEq, Eq)]
pub enum Order {
    /// The least significant byte comes first.
    Little,
    /// The most significant byte comes first.
    Big,
}

/// The size of a primitive in bytes: 1, 2, 4 or 8 (SBE 1.0, primitive encodings).
pub fn size(p: Primitive) -> usize
    ensures { result ≡ size_of p }
{
    match p {
        Primitive::Char | Primitive::Int8 | Primitive::UInt8 => 1,
        Primitive::Int16 | Primitive::UInt16 => 2,
        Primitive::Int32 | Primitive::UInt32 | Primitive::Float => 4,
        Primitive::Int64 | Primitive::UInt64 | Primitive::Double => 8,
    }
}

/// The number that stands for "no value" (SBE 1.0, null values); 0 for a float or a double.
pub fn null(p: Primitive) -> i128
    ensures { result ≡ null_of p }
{
    match p {
        Primitive::Char | Primitive::Float | Primitive::Double => 0,
        Primitive::Int8 | Primitive::Int16 | Primitive::Int32 | Primitive::Int64 => least(p),
        Primitive::UInt8 | Primitive::UInt16 | Primitive::UInt32 | Primitive::UInt64 => greatest(p),
    }
}

/// The least number that the bytes of a primitive hold; 0 for a float or a double.
pub fn least(p: Primitive) -> i128
    ensures { result ≡ least_of p }
{
    match p {
        Primitive::Int8 => -0x80,
        Primitive::Int16 => -0x8000,
        Primitive::Int32 => -0x8000_0000,
        Primitive::Int64 => -0x8000_0000_0000_0000,
        _ => 0,
    }
}

/// The greatest number that the bytes of a primitive hold; 0 for a float or a double.
pub fn greatest(p: Primitive) -> i128
    ensures { result ≡ greatest_of p }
{
    match p {
        Primitive::Char | Primitive::UInt8 => 0xff,
        Primitive::Int8 => 0x7f,
        Primitive::Int16 => 0x7fff,
        Primitive::Int32 => 0x7fff_ffff,
        Primitive::Int64 => 0x7fff_ffff_ffff_ffff,
        Primitive::UInt16 => 0xffff,
        Primitive::UInt32 => 0xffff_ffff,
        Primitive::UInt64 => 0xffff_ffff_ffff_ffff,
        Primitive::Float | Primitive::Double => 0,
    }
}

/// Whether the bytes of a primitive spell an integer: it is neither float nor double.
pub fn is_integral(p: Primitive) -> bool
    ensures { IsTrue result ↔ IsTrue (is_integer p) }
{
    !matches!(p, Primitive::Float | Primitive::Double)
}

/// Whether a primitive holds a number: an integer lies from its least to its
/// greatest, and a float or a double holds every number.
pub fn can_hold(p: Primitive, value: i128) -> bool
    ensures { IsTrue result ↔ IsTrue (holds p value) }
{
    !is_integral(p) || (least(p) <= value && value <= greatest(p))
}

//! Reading and writing the number that a primitive's bytes spell (SBE 1.0,
//! integer encoding), over std's conversions of fixed widths.

ghost use Rattle.std.specs.Prelude.{◌≡◌, length, IsTrue};
ghost use Rattle.std.specs.Int.{w16, w32, w64};
ghost use Rattle.sbe_prim.specs.Primitives.{size_of, is_integer, holds};
ghost use Rattle.sbe_prim.specs.Numbers.{magnitude_of, spelled, number_of, bytes_of, ReadsBack, WritesBack};

use crate::{Order, Primitive};

/// The number that the bytes of an integer primitive spell.
pub fn read(p: Primitive, order: Order, bytes: &[u8]) -> i128
    requires integer { IsTrue (is_integer p) }
    requires whole { length bytes.now ≡ size_of p }
    ensures number { result ≡ number_of p order bytes.now }
    ensures held { IsTrue (holds p result) }
{
    match p {
        Primitive::Char | Primitive::UInt8 => bytes[0] as i128,
        Primitive::Int8 => bytes[0].cast_signed() as i128,
        Primitive::Int16 => read_two(order, bytes).cast_signed() as i128,
        Primitive::Int32 => read_four(order, bytes).cast_signed() as i128,
        Primitive::Int64 => read_eight(order, bytes).cast_signed() as i128,
        Primitive::UInt16 => read_two(order, bytes) as i128,
        Primitive::UInt32 => read_four(order, bytes) as i128,
        Primitive::UInt64 => read_eight(order, bytes) as i128,
        Primitive::Float | Primitive::Double => unreachable!(),
    }
}

fn read_two(order: Order, bytes: &[u8]) -> u16
    requires { length bytes.now ≡ 2 }
    ensures { result ≡ magnitude_of w16 order bytes.now }
{
    let word = [bytes[0], bytes[1]];
    match order {
        Order::Little => u16::from_le_bytes(word),
        Order::Big => u16::from_be_bytes(word),
    }
}

fn read_four(order: Order, bytes: &[u8]) -> u32
    requires { length bytes.now ≡ 4 }
    ensures { result ≡ magnitude_of w32 order bytes.now }
{
    let word = [bytes[0], bytes[1], bytes[2], bytes[3]];
    match order {
        Order::Little => u32::from_le_bytes(word),
        Order::Big => u32::from_be_bytes(word),
    }
}

fn read_eight(order: Order, bytes: &[u8]) -> u64
    requires { length bytes.now ≡ 8 }
    ensures { result ≡ magnitude_of w64 order bytes.now }
{
    let word = [
        bytes[0], bytes[1], bytes[2], bytes[3], bytes[4], bytes[5], bytes[6], bytes[7],
    ];
    match order {
        Order::Little => u64::from_le_bytes(word),
        Order::Big => u64::from_be_bytes(word),
    }
}

/// Writes the bytes of a number that the integer primitive holds.
pub fn write(p: Primitive, order: Order, value: i128, out: &mut [u8])
    requires integer { IsTrue (is_integer p) }
    requires held { IsTrue (holds p value) }
    requires whole { length out.old ≡ size_of p }
    ensures bytes { out.new ≡ bytes_of p order value }
    ensures number { number_of p order out.new ≡ value }
{
    match p {
        Primitive::Char | Primitive::UInt8 => out[0] = value as u8,
        Primitive::Int8 => out[0] = (value as i8).cast_unsigned(),
        Primitive::Int16 => write_two(order, (value as i16).cast_unsigned(), out),
        Primitive::Int32 => write_four(order, (value as i32).cast_unsigned(), out),
        Primitive::Int64 => write_eight(order, (value as i64).cast_unsigned(), out),
        Primitive::UInt16 => write_two(order, value as u16, out),
        Primitive::UInt32 => write_four(order, value as u32, out),
        Primitive::UInt64 => write_eight(order, value as u64, out),
        Primitive::Float | Primitive::Double => unreachable!(),
    }
}

fn write_two(order: Order, value: u16, out: &mut [u8])
    requires { length out.old ≡ 2 }
    ensures { out.new ≡ spelled w16 order value }
{
    match order {
        Order::Little => out.copy_from_slice(&value.to_le_bytes()),
        Order::Big => out.copy_from_slice(&value.to_be_bytes()),
    }
}

fn write_four(order: Order, value: u32, out: &mut [u8])
    requires { length out.old ≡ 4 }
    ensures { out.new ≡ spelled w32 order value }
{
    match order {
        Order::Little => out.copy_from_slice(&value.to_le_bytes()),
        Order::Big => out.copy_from_slice(&value.to_be_bytes()),
    }
}

fn write_eight(order: Order, value: u64, out: &mut [u8])
    requires { length out.old ≡ 8 }
    ensures { out.new ≡ spelled w64 order value }
{
    match order {
        Order::Little => out.copy_from_slice(&value.to_le_bytes()),
        Order::Big => out.copy_from_slice(&value.to_be_bytes()),
    }
}

/// The law that what is written reads back as the number it was.
pub fn reads_back(p: Primitive, order: Order, value: i128)
    requires integer { IsTrue (is_integer p) }
    requires held { IsTrue (holds p value) }
    ensures { ReadsBack p order value }
{}

/// The law that what is read, written again, gives the same bytes.
pub fn writes_back(p: Primitive, order: Order, bytes: &[u8])
    requires integer { IsTrue (is_integer p) }
    requires whole { length bytes.now ≡ size_of p }
    ensures { WritesBack p order bytes.now }
{}

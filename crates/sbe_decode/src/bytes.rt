//! Bytes at the front of what is left, and the numbers among them.

ghost use Rattle.std.specs.Prelude.{◌≡◌, ◌-◌, length, take, drop};
ghost use Rattle.sbe_prim.specs.Primitives.{size_of};
ghost use Rattle.sbe_grammar.specs.Parts.{unsigned};
ghost use Rattle.sbe_grammar.specs.Reading.{read_bytes};
ghost use Rattle.sbe_grammar.specs.Values.{is_in};
ghost use Rattle.sbe_decode.specs.Answers.{Tells};

use sbe_grammar::DecodeFault;
use sbe_prim::{Order, Primitive, read};

/// What holds for a whole message.
#[derive(Clone, Copy)]
pub struct Reading {
    /// The byte order of its numbers.
    pub order: Order,
    /// Its version, by its header.
    pub version: u16,
    /// Its length in bytes.
    pub total: usize,
}

/// The place of the first of the bytes left, from the message's first byte.
pub fn place(total: usize, left: &[u8]) -> u64
    ensures { result ≡ total - length left.now }
{
    total.saturating_sub(left.len()) as u64
}

/// The first `count` bytes and those behind them.
pub fn read_bytes(total: usize, count: u64, left: &[u8]) -> Result<(&[u8], &[u8]), DecodeFault>
    ensures { Tells (λ x. (x.0.now, x.1.now)) result (read_bytes total count left.now) }
{
    if (left.len() as u64) < count {
        return Err(DecodeFault::Truncated {
            at: place(total, left),
        });
    }
    Ok(left.split_at(count as usize))
}

/// The number of a length or a count, which has no sign.
pub fn unsigned(order: Order, prim: Primitive, bytes: &[u8]) -> u64
    requires { length bytes.now ≡ size_of prim }
    ensures { result ≡ unsigned order prim bytes.now }
{
    match prim {
        Primitive::Char | Primitive::Int8 | Primitive::UInt8 => {
            read(Primitive::UInt8, order, bytes) as u64
        }
        Primitive::Int16 | Primitive::UInt16 => read(Primitive::UInt16, order, bytes) as u64,
        Primitive::Int32 | Primitive::UInt32 | Primitive::Float => {
            read(Primitive::UInt32, order, bytes) as u64
        }
        Primitive::Int64 | Primitive::UInt64 | Primitive::Double => {
            read(Primitive::UInt64, order, bytes) as u64
        }
    }
}

/// Whether a message of this version has what came with the version `since`.
pub fn is_in(version: u16, since: i128) -> bool
    ensures { result ≡ is_in version since }
{
    !((version as i128) < since)
}

/// The first bytes, as many as there are up to `count`, and those behind them.
#[tactic(auto, using(std::proofs::lemmas::List::take_min, std::proofs::lemmas::List::drop_min))]
pub fn front(bytes: &[u8], count: u128) -> (&[u8], &[u8])
    ensures first { result.0.now ≡ take count bytes.now }
    ensures behind { result.1.now ≡ drop count bytes.now }
{
    let here = count.min(bytes.len() as u128) as usize;
    bytes.split_at(here)
}

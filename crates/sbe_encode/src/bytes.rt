//! Numbers and zeros behind what is written so far.

ghost use Rattle.std.specs.Prelude.{◌≡◌, ◌++◌, pos, IsTrue, OnOk};
ghost use Rattle.sbe_prim.specs.Numbers.{bytes_of};
ghost use Rattle.sbe_grammar.specs.Canonical.{can_write, count_bytes, zeros};

use sbe_prim::{Order, Primitive, can_hold, is_integral, size, write};
use std::alloc::AllocError;

/// Whether a primitive writes a number: it is an integer, and holds it.
pub fn can_write(p: Primitive, value: i128) -> bool
    ensures { result ≡ can_write p value }
{
    is_integral(p) && can_hold(p, value)
}

/// Writes a number that the primitive can write.
pub fn write_number(
    p: Primitive,
    order: Order,
    value: i128,
    out: &mut Vec<u8>,
) -> Result<(), AllocError>
    requires { IsTrue (can_write p value) }
    ensures { OnOk result (out.new.items ≡ out.old.items ++ bytes_of p order value) }
{
    match size(p) {
        1 => {
            let mut word = [0u8; 1];
            write(p, order, value, &mut word);
            out.extend_from_slice(&word)
        }
        2 => {
            let mut word = [0u8; 2];
            write(p, order, value, &mut word);
            out.extend_from_slice(&word)
        }
        4 => {
            let mut word = [0u8; 4];
            write(p, order, value, &mut word);
            out.extend_from_slice(&word)
        }
        _ => {
            let mut word = [0u8; 8];
            write(p, order, value, &mut word);
            out.extend_from_slice(&word)
        }
    }
}

/// Whether a primitive writes a length or a count.
pub fn can_count(p: Primitive, count: u128) -> bool
    ensures { result ≡ can_write p (pos count) }
{
    count <= u64::MAX as u128 && can_write(p, count as i128)
}

/// Writes a length or a count that the primitive can write.
pub fn write_count(
    p: Primitive,
    order: Order,
    count: u128,
    out: &mut Vec<u8>,
) -> Result<(), AllocError>
    requires { IsTrue (can_write p (pos count)) }
    ensures { OnOk result (out.new.items ≡ out.old.items ++ count_bytes order p count) }
{
    write_number(p, order, count as i128, out)
}

const ZEROS: [u8; 64] = [0; 64];

/// Writes zeros.
#[tactic(auto, using(crate::proofs::Counts::more_zeros, crate::proofs::Counts::last_zeros))]
pub fn write_zeros(count: u128, out: &mut Vec<u8>) -> Result<(), AllocError>
    ensures { OnOk result (out.new.items ≡ out.old.items ++ zeros count) }
{
    // most values stand right behind one another
    if count == 0 {
        return Ok(());
    }
    let mut left = count;
    while left >= 64 {
        out.extend_from_slice(&ZEROS)?;
        left -= 64;
    }
    let (last, _) = ZEROS.split_at(left as usize);
    out.extend_from_slice(last)
}

//! What stands before the names in an entry of a group.

ghost use Rattle.std.specs.Prelude.{◌≡◌, [], ◌∷◌, ◌++◌, take, decimal, IfOk, OnOk};
ghost use Rattle.sbe_layout.specs.Views.{head_of};
ghost use Rattle.sbe_text.specs.Written.{before_in};

use crate::values::{write_natural, write_piece};
use sbe_layout::GroupPlan;
use sbe_value::Bytes;
use std::alloc::{AllocError, Global};

/// What stands before the names in the entry at a place, from 0: the group's path, the place in brackets, a dot.
pub fn names_begin(
    alloc: Global,
    before: &[u8],
    g: &GroupPlan,
    at: u128,
) -> Result<Bytes, AllocError>
    ensures { IfOk result (λ inner. inner ≡ before_in before.now (head_of g.now) at) }
{
    let mut inner = Vec::new(alloc);
    begin_names(before, g, at, &mut inner)?;
    Ok(Bytes::from(inner))
}

/// The same in a buffer, whose room serves one entry after another: what it had is dropped.
pub fn begin_names(
    before: &[u8],
    g: &GroupPlan,
    at: u128,
    inner: &mut Vec<u8>,
) -> Result<(), AllocError>
    ensures { OnOk result (inner.new.items ≡ before_in before.now (head_of g.now) at) }
{
    inner.clear();
    inner.extend_from_slice(before)?;
    inner.extend_from_slice(g.name.as_slice())?;
    inner.push(b'[')?;
    write_natural(at, inner)?;
    inner.extend_from_slice(b"].")
}

/// Adds the name of a group and a bracket to what stands before that name: with these the names of all its entries begin.
pub fn open_group(name: &Bytes, names: &mut Vec<u8>) -> Result<(), AllocError>
    ensures { OnOk result (names.new.items ≡ names.old.items ++ name.now ++ 91 ∷ []) }
{
    names.extend_from_slice(name.as_slice())?;
    names.push(b'[')?;
    Ok(())
}

/// Cuts back to so many bytes, those that [`open_group`] left, and adds the place of an entry, from 0, with a bracket and a dot.
pub fn open_entry(opened: usize, at: u128, names: &mut Vec<u8>) -> Result<(), AllocError>
    ensures { OnOk result (names.new.items ≡ take opened names.old.items ++ decimal at ++ 93 ∷ 46 ∷ []) }
{
    names.truncate(opened);
    match u64::try_from(at) {
        Ok(short) => {
            let mut room = *b"                    ].";
            write_piece(short, &mut room, names)
        }
        Err(_) => {
            write_natural(at, names)?;
            names.extend_from_slice(b"].")
        }
    }
}

//! A number in front of what its type calls it, as messages are shown with the names of their numbers.

ghost use Rattle.std.specs.Prelude.{◌≡◌, ◌++◌, ◌∷◌, slice_get, codes, IfOk, OnOk};
ghost use Rattle.std.specs.Str.{bytes_eq};
ghost use Rattle.sbe_text.specs.Named.{bit_names};
ghost use Rattle.sbe_text.specs.Tokens.{also, held, natural_of};
ghost use Rattle.text_names.specs.Called.{is_called, is_value, uncalled};

use crate::bare::cut_at;
use crate::names::has_bit;
use crate::show::is_number;
use sbe_layout::Listing;
use sbe_schema::{BitDef, ValueDef};
use sbe_text::{Count, entry_count};
use std::alloc::AllocError;

// Whether the value of an enum that has the name has this number.
fn is_value(values: &[ValueDef], number: &[u8], name: &[u8]) -> bool
    ensures { result ≡ is_value values.now number.now name.now }
{
    for v in values {
        if v.name.as_slice() == name {
            return is_number(v.value, number);
        }
    }
    false
}

// A number without a sign.
#[tactic(auto, using(crate::proofs::Calling::natural_counted))]
fn natural(text: &[u8]) -> Option<u128>
    ensures { result ≡ also (natural_of text.now) held }
{
    match entry_count(text) {
        Some(Count::Entries(number)) => Some(number),
        Some(Count::Absent) | None => None,
    }
}

// Writes a name behind a blank.
fn write_name(name: &[u8], room: &mut Vec<u8>) -> Result<(), AllocError>
    ensures { OnOk result (room.new.items ≡ room.old.items ++ codes " " ++ name.now) }
{
    room.push(b' ')?;
    room.extend_from_slice(name)
}

// Writes the names of the bits of a number that a set names.
fn write_bit_names(bits: &[BitDef], number: u128, room: &mut Vec<u8>) -> Result<(), AllocError>
    ensures { OnOk result (room.new.items ≡ room.old.items ++ bit_names number bits.now) }
{
    for b in bits {
        if has_bit(number, b.bit) {
            write_name(b.name.as_slice(), room)?;
        }
    }
    Ok(())
}

// Whether these are the names of the bits of a number, which are put into a room.
fn are_choices(
    bits: &[BitDef],
    number: u128,
    names: &[u8],
    room: &mut Vec<u8>,
) -> Result<bool, AllocError>
    ensures { IfOk result (λ is. is ≡ bytes_eq (bit_names number bits.now) (32 ∷ names.now)) }
{
    room.clear();
    write_bit_names(bits, number, room)?;
    match room.as_slice() {
        [b' ', shown @ ..] => Ok(shown == names),
        _ => Ok(false),
    }
}

// Whether the type at a place calls a number so.
fn is_called(
    listings: &[Listing],
    at: u64,
    number: &[u8],
    names: &[u8],
    room: &mut Vec<u8>,
) -> Result<bool, AllocError>
    ensures { IfOk result (λ is. is ≡ is_called (slice_get listings.now at) number.now names.now) }
{
    match listings.get(at as usize) {
        Some(Listing::Values(values)) => Ok(is_value(values.as_slice(), number, names)),
        Some(Listing::Bits(bits)) => match natural(number) {
            Some(natural) => are_choices(bits.as_slice(), natural, names, room),
            None => Ok(false),
        },
        Some(Listing::Nothing) | None => Ok(false),
    }
}

/// The number in front of what the type at a place calls it; all else stays as it is. Names are put into a room.
pub(crate) fn uncalled<'a>(
    listings: &[Listing],
    at: u64,
    text: &'a [u8],
    room: &mut Vec<u8>,
) -> Result<&'a [u8], AllocError>
    ensures { IfOk result (λ t. t.now ≡ uncalled (slice_get listings.now at) text.now) }
{
    let Some((number, names)) = cut_at(b' ', text) else {
        return Ok(text);
    };
    if is_called(listings, at, number, names, room)? {
        Ok(number)
    } else {
        Ok(text)
    }
}

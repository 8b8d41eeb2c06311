//! What an element of a message may have in a text: the names and numbers that its type lists, or the form of its value.

use sbe_layout::{ItemKind, ItemPlan, Listing, Plan};
use sbe_prim::{Primitive, default_greatest, default_least, is_integral};
use schema_types::{BitDef, Presence, ValueDef};
use std::alloc::AllocError;

/// The most names that are listed.
const LISTED: usize = 16;

/// Adds what stands in front of the name at this place of so many; says whether that one is still listed.
fn begins_name(line: &mut String, at: usize, count: usize) -> Result<bool, AllocError> {
    if at >= LISTED {
        let more = count.saturating_sub(at);
        write!(line, " and {more} more")?;
        return Ok(false);
    }
    if at > 0 {
        line.push_str(", ")?;
    }
    Ok(true)
}

/// Adds a number and the name that a schema gives it, which has letters, digits and `_` alone.
fn push_named(line: &mut String, number: i128, name: &[u8]) -> Result<(), AllocError> {
    let name = std::str::from_utf8(name).unwrap_or("?");
    write!(line, "{number} {name}")
}

/// Adds the values of an enum.
fn push_values(line: &mut String, values: &[ValueDef]) -> Result<(), AllocError> {
    for (at, value) in values.iter().enumerate() {
        if !begins_name(line, at, values.len())? {
            break;
        }
        push_named(line, value.value, value.name.as_slice())?;
    }
    Ok(())
}

/// The number of a set that has this bit alone.
fn number_of(bit: u8) -> i128 {
    1i128.checked_shl(u32::from(bit)).unwrap_or(0)
}

/// Adds the bits of a set, each as the number that has it alone.
fn push_bits(line: &mut String, bits: &[BitDef]) -> Result<(), AllocError> {
    for (at, bit) in bits.iter().enumerate() {
        if !begins_name(line, at, bits.len())? {
            break;
        }
        push_named(line, number_of(bit.bit), bit.name.as_slice())?;
    }
    Ok(())
}

/// Adds what an enum or a set at this place of the types lists.
pub fn push_listed(line: &mut String, plan: &Plan, at: u64) -> Result<(), AllocError> {
    let place = usize::try_from(at).unwrap_or(usize::MAX);
    match plan.listings.as_slice().get(place) {
        Some(Listing::Values(values)) => push_values(line, values.as_slice()),
        Some(Listing::Bits(bits)) => push_bits(line, bits.as_slice()),
        Some(Listing::Nothing) | None => line.push_str("nothing"),
    }
}

/// Adds the form of raw bytes.
fn push_raw(line: &mut String, size: u128, words: &str) -> Result<(), AllocError> {
    let digits = size.saturating_mul(2);
    write!(line, "x and {digits} hexadecimal digits{words}")
}

/// Adds the form of an array.
fn push_array(line: &mut String, prim: Primitive, size: u128) -> Result<(), AllocError> {
    match prim {
        Primitive::Char => {
            let digits = size.saturating_mul(2);
            write!(
                line,
                "at most {size} characters between quotes, or x and at most {digits} hexadecimal digits"
            )
        }
        _ => push_raw(line, size, ""),
    }
}

/// Adds the form of a number, with its range where it is a whole one.
fn push_single(
    line: &mut String,
    plan: &ItemPlan,
    prim: Primitive,
    min: Option<i128>,
    max: Option<i128>,
) -> Result<(), AllocError> {
    if !is_integral(prim) {
        return push_raw(
            line,
            plan.size,
            ", the bytes of the number in the byte order of the schema",
        );
    }
    let least = min.unwrap_or(default_least(prim));
    let greatest = max.unwrap_or(default_greatest(prim));
    write!(line, "a whole number from {least} to {greatest}")?;
    match plan.presence {
        Presence::Optional => line.push_str(", or null"),
        Presence::Required | Presence::Constant => Ok(()),
    }
}

/// Adds what the value of an item may be.
pub fn push_form(line: &mut String, plan: &Plan, item: &ItemPlan) -> Result<(), AllocError> {
    match item.kind {
        ItemKind::Enum { at, .. } => {
            line.push_str("one of the numbers ")?;
            push_listed(line, plan, at)
        }
        ItemKind::Set { at, .. } => {
            line.push_str("a sum of the numbers ")?;
            push_listed(line, plan, at)
        }
        ItemKind::Number { prim, length, .. } if length >= 2 => push_array(line, prim, item.size),
        ItemKind::Number { prim, min, max, .. } => push_single(line, item, prim, min, max),
    }
}

/// Adds the names of the messages of a schema.
pub fn push_message_names(line: &mut String, plan: &Plan) -> Result<(), AllocError> {
    let messages = plan.messages.as_slice();
    for (at, message) in messages.iter().enumerate() {
        if !begins_name(line, at, messages.len())? {
            break;
        }
        line.push_str(std::str::from_utf8(message.name.as_slice()).unwrap_or("?"))?;
    }
    Ok(())
}

/// Adds the names of the messages of a schema, with the ids of their templates.
pub fn push_messages(line: &mut String, plan: &Plan) -> Result<(), AllocError> {
    let messages = plan.messages.as_slice();
    for (at, message) in messages.iter().enumerate() {
        if !begins_name(line, at, messages.len())? {
            break;
        }
        push_named(line, i128::from(message.template), message.name.as_slice())?;
    }
    Ok(())
}

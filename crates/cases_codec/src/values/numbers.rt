//! Lines on the primitives and on the numbers that bytes spell.

use cases_words::{bytes, digits, halves};
use sbe_prim::{
    Order, Primitive, can_hold, find_primitive, greatest, is_integral, least, null, primitive_name,
    read, size, write,
};
use std::alloc::{AllocError, Global};

/// Adds `NAME`, and behind it its size, null, least and greatest number, and whether it is an integer.
pub fn push_primitive(line: &mut String, name: &str) -> Result<(), AllocError> {
    match find_primitive(name.as_bytes()) {
        Some(p) => push_range(line, p),
        None => write!(line, "{name} is no primitive"),
    }
}

fn push_range(line: &mut String, p: Primitive) -> Result<(), AllocError> {
    let word = str::from_utf8(primitive_name(p)).unwrap_or("?");
    let integer = if is_integral(p) { "integer" } else { "raw" };
    write!(
        line,
        "{word} {} {} {} {} {integer}",
        size(p),
        null(p),
        least(p),
        greatest(p)
    )
}

/// Adds whether a primitive holds a number: `NAME NUMBER`.
pub fn push_holds(line: &mut String, words: &str) -> Result<(), AllocError> {
    let (name, number) = halves(words);
    match (find_primitive(name.as_bytes()), number.parse::<i128>()) {
        (Some(p), Ok(number)) => write!(line, "{words} {}", can_hold(p, number)),
        _ => write!(line, "no case: {words}"),
    }
}

/// Adds the number that bytes spell, and the bytes that it is written as: `NAME ORDER HEX`.
pub fn push_number(alloc: Global, line: &mut String, words: &str) -> Result<(), AllocError> {
    let (name, others) = halves(words);
    let (order, word) = halves(others);
    let mut bytes = bytes(alloc, word)?;
    match find_primitive(name.as_bytes()) {
        Some(p) => push_spelled(alloc, line, words, p, order_of(order), bytes.as_mut_slice()),
        None => write!(line, "no case: {words}"),
    }
}

fn order_of(word: &str) -> Order {
    if word == "big" {
        Order::Big
    } else {
        Order::Little
    }
}

fn push_spelled(
    alloc: Global,
    line: &mut String,
    words: &str,
    p: Primitive,
    order: Order,
    bytes: &mut [u8],
) -> Result<(), AllocError> {
    if !is_integral(p) || bytes.len() != size(p) {
        return write!(line, "no case: {words}");
    }
    let number = read(p, order, bytes);
    bytes.fill(0);
    write(p, order, number, bytes);
    write!(line, "{words} {number} {}", digits(alloc, bytes)?)
}

//! The value of an item where it stands in its message.

ghost use Rattle.std.specs.Prelude.{◌≡◌, length, IsTrue, IfOk};
ghost use Rattle.sbe_prim.specs.Primitives.{is_integer, size_of};
ghost use Rattle.sbe_grammar.specs.Values.{null_by, number_or_null, text_in, array_value, of_integer, value_by, item_in};
ghost use Rattle.sbe_value.specs.declared.item.Item.TheVariants.{Num};
ghost use Rattle.sbe_decode.specs.Shown.{Shows, item_of};

use crate::bytes::{Reading, front, is_in};
use sbe_layout::{ItemKind, ItemPlan};
use sbe_prim::{Order, Primitive, is_integral, null, read, size};
use sbe_schema::Presence;
use sbe_value::{Bytes, Item};
use std::alloc::{AllocError, Global};

/// The value of a field of a message, borrowed from its bytes.
#[derive(Clone, Copy)]
pub enum FieldView<'a> {
    /// An integer, the raw number of an enum or a set, or a character's code.
    Num(i128),
    /// The bytes of an array of characters before its first NUL, of an array of bytes, or of a float or a double in wire order.
    Bytes(&'a [u8]),
    /// An optional number that is not set.
    Null,
    /// A field that the message's version does not have.
    Absent,
}

/// The value of an item, its text or its bytes still in the message.
#[derive(Clone, Copy)]
pub enum Value<'a> {
    /// A number.
    Num(i128),
    /// An optional number that is not set.
    Null,
    /// What the message's version does not have.
    Absent,
    /// An array of characters, up to its first NUL.
    Text(&'a [u8]),
    /// Bytes as they stand.
    Raw(&'a [u8]),
}

impl<'a> Value<'a> {
    /// What a caller of a view sees of it.
    pub fn field(self) -> FieldView<'a>
        ensures { Shows result (item_of self.entry) }
    {
        match self {
            Value::Num(n) => FieldView::Num(n),
            Value::Null => FieldView::Null,
            Value::Absent => FieldView::Absent,
            Value::Text(text) => FieldView::Bytes(text),
            Value::Raw(bytes) => FieldView::Bytes(bytes),
        }
    }

    /// The item, with a text or bytes of its own.
    pub fn to_item(self, alloc: Global) -> Result<Item, AllocError>
        ensures { IfOk result (λ item. item ≡ item_of self.entry) }
    {
        match self {
            Value::Num(n) => Ok(Item::Num(n)),
            Value::Null => Ok(Item::Null),
            Value::Absent => Ok(Item::Absent),
            Value::Text(text) => Ok(Item::Text(Bytes::from_slice(alloc, text)?)),
            Value::Raw(bytes) => Ok(Item::Raw(Bytes::from_slice(alloc, bytes)?)),
        }
    }
}

/// The value of an item in a block of the message.
pub fn value_in<'a>(reading: Reading, block: &'a [u8], plan: &ItemPlan) -> Value<'a>
    ensures { item_of result ≡ item_in reading.order reading.version block.now plan.now }
{
    if !is_in(reading.version, plan.since) {
        return Value::Absent;
    }
    let (_, rest) = front(block, plan.offset);
    let (bytes, _) = front(rest, plan.size);
    value_of(reading.order, plan.presence, plan.kind, bytes)
}

// The value that the bytes of an item of this type spell.
fn value_of(order: Order, presence: Presence, kind: ItemKind, bytes: &[u8]) -> Value<'_>
    ensures { item_of result ≡ value_by order presence kind bytes.now }
{
    match kind {
        ItemKind::Number {
            prim,
            length,
            null,
            ..
        } => {
            if length >= 2 {
                array(prim, bytes)
            } else {
                number(order, presence, prim, null, bytes)
            }
        }
        ItemKind::Enum { prim, .. } => code(order, prim, bytes),
        ItemKind::Set { prim, .. } => code(order, prim, bytes),
    }
}

// The raw number of an enum or a set.
fn code(order: Order, prim: Primitive, bytes: &[u8]) -> Value<'_>
    ensures { item_of result ≡ of_integer order prim Num bytes.now }
{
    if is_integral(prim) && bytes.len() == size(prim) {
        Value::Num(read(prim, order, bytes))
    } else {
        Value::Raw(bytes)
    }
}

// A number, which may be the one that stands for no value.
fn number(
    order: Order,
    presence: Presence,
    prim: Primitive,
    stated: Option<i128>,
    bytes: &[u8],
) -> Value<'_>
    ensures { item_of result ≡ of_integer order prim (number_or_null presence (null_by prim stated)) bytes.now }
{
    if !is_integral(prim) || bytes.len() != size(prim) {
        return Value::Raw(bytes);
    }
    number_or_null(presence, null_by(prim, stated), read(prim, order, bytes))
}

// The number that stands for no value: the stated one, or the primitive's.
fn null_by(prim: Primitive, stated: Option<i128>) -> i128
    ensures { result ≡ null_by prim stated }
{
    match stated {
        None => null(prim),
        Some(stated) => stated,
    }
}

// An optional number that is the null one is not set.
fn number_or_null<'a>(presence: Presence, null: i128, number: i128) -> Value<'a>
    ensures { item_of result ≡ number_or_null presence null number }
{
    match presence {
        Presence::Required | Presence::Constant => Value::Num(number),
        Presence::Optional => {
            if number == null {
                Value::Null
            } else {
                Value::Num(number)
            }
        }
    }
}

// An array of characters is a text, and any other its bytes.
fn array(prim: Primitive, bytes: &[u8]) -> Value<'_>
    ensures { item_of result ≡ array_value prim bytes.now }
{
    match prim {
        Primitive::Char => Value::Text(text_in(bytes)),
        _ => Value::Raw(bytes),
    }
}

// The text before the first NUL.
fn text_in(bytes: &[u8]) -> &[u8]
    ensures { result.now ≡ text_in bytes.now }
{
    for (i, byte) in bytes.iter().enumerate() {
        if *byte == 0 {
            let (text, _) = bytes.split_at(i);
            return text;
        }
    }
    bytes
}

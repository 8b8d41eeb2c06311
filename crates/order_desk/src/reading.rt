//! The order in a payload, read where it stands. Relies on the view of a message, which takes no memory.

ghost use Rattle.std.specs.Prelude.{◌≡◌, get_or, option_map};
ghost use Rattle.sbe_value.specs.declared.item.Item.{Item};
ghost use Rattle.sbe_grammar.specs.Reading.{message_in};
ghost use Rattle.sbe_decode.specs.Shown.{Shows};
ghost use Rattle.order_desk.specs.declared.order.Order.TheVariants.{New};
ghost use Rattle.order_desk.specs.Orders.{item_at, natural_to, natural_in, price_of, price_in, side_of, side_in, symbol_of, symbol_in, new_order_in, cancel_in, order_of, order_read, order_in, answer_of};

use crate::order::{NewOrder, Order, OrderFault, Side, Symbol};
use sbe_decode::{FieldView, MessageView, view};
use sbe_layout::Plan;

/// The greatest identifier; the number above it stands for none.
const GREATEST_ID: u64 = u64::MAX - 1;

/// The order in a payload, by a plan of the order schema. It takes no memory.
///
/// # Errors
/// `NotAnOrder`, where the payload does not begin with the encoding type 0xEB50, its message does not decode or is neither NewOrder nor
/// Cancel, or its identifier is the null value.
pub fn read_order(plan: &Plan, payload: &[u8]) -> Result<Order, OrderFault>
    ensures told { result ≡ answer_of (order_in plan.now payload.now) }
{
    let [0xEB, 0x50, message @ ..] = payload else {
        return Err(OrderFault::NotAnOrder);
    };
    match order_read(plan, message) {
        Some(order) => Ok(order),
        None => Err(OrderFault::NotAnOrder),
    }
}

// The order that a message is.
fn order_read(plan: &Plan, message: &[u8]) -> Option<Order>
    ensures { result ≡ order_read (message_in plan.now message.now) }
{
    let Ok(view) = view(plan, message) else {
        return None;
    };
    order_of(&view)
}

fn order_of(view: &MessageView<'_>) -> Option<Order>
    ensures { result ≡ order_of view.now }
{
    match view.template() {
        1 => new_order_in(view),
        2 => cancel_in(view),
        _ => None,
    }
}

fn new_order_in(view: &MessageView<'_>) -> Option<Order>
    ensures { result ≡ option_map New (new_order_in view.now.root.items) }
{
    let cl_id = natural_in(item_at(view, 0), GREATEST_ID)?;
    let symbol = symbol_in(item_at(view, 2))?;
    let quantity = natural_in(item_at(view, 3), u32::MAX as u64)?;
    let price = price_in(item_at(view, 4))?;
    Some(Order::New(NewOrder {
        cl_id,
        side: side_in(item_at(view, 1)),
        symbol,
        quantity: quantity as u32,
        price,
    }))
}

fn cancel_in(view: &MessageView<'_>) -> Option<Order>
    ensures { result ≡ cancel_in view.now.root.items }
{
    let cl_id = natural_in(item_at(view, 0), GREATEST_ID)?;
    let orig = natural_in(item_at(view, 1), u64::MAX)?;
    Some(Order::Cancel { cl_id, orig })
}

// ---- what an item says

// An item that is not there is absent.
fn item_at<'a>(view: &MessageView<'a>, at: usize) -> FieldView<'a>
    ensures { Shows result (item_at view.now.root.items at) }
{
    if at < view.field_count() {
        view.field(at)
    } else {
        FieldView::Absent
    }
}

// A number from 0 to a greatest one.
fn natural_in(field: FieldView<'_>, most: u64) -> Option<u64>
    ensures { (i : Item) → Shows field.entry i → result ≡ natural_in most i }
{
    match field {
        FieldView::Num(number) => natural_to(number, most),
        FieldView::Bytes(_) | FieldView::Null | FieldView::Absent => None,
    }
}

fn natural_to(number: i128, most: u64) -> Option<u64>
    ensures { result ≡ natural_to most number }
{
    if 0 <= number && number <= most as i128 {
        Some(number as u64)
    } else {
        None
    }
}

fn price_in(field: FieldView<'_>) -> Option<i64>
    ensures { (i : Item) → Shows field.entry i → result ≡ price_in i }
{
    match field {
        FieldView::Num(number) => price_of(number),
        FieldView::Bytes(_) | FieldView::Null | FieldView::Absent => None,
    }
}

fn price_of(number: i128) -> Option<i64>
    ensures { result ≡ price_of number }
{
    if i64::MIN as i128 <= number && number <= i64::MAX as i128 {
        Some(number as i64)
    } else {
        None
    }
}

fn side_in(field: FieldView<'_>) -> Option<Side>
    ensures { (i : Item) → Shows field.entry i → result ≡ side_in i }
{
    match field {
        FieldView::Num(number) => side_of(number),
        FieldView::Bytes(_) | FieldView::Null | FieldView::Absent => None,
    }
}

fn side_of(number: i128) -> Option<Side>
    ensures { result ≡ side_of number }
{
    match number {
        1 => Some(Side::Buy),
        2 => Some(Side::Sell),
        _ => None,
    }
}

fn symbol_in(field: FieldView<'_>) -> Option<Symbol>
    ensures { (i : Item) → Shows field.entry i → result ≡ symbol_in i }
{
    match field {
        FieldView::Bytes(text) => Some(symbol_of(text)),
        FieldView::Num(_) | FieldView::Null | FieldView::Absent => None,
    }
}

// A text with NUL behind it to eight bytes.
fn symbol_of(text: &[u8]) -> Symbol
    ensures { result ≡ symbol_of text.now }
{
    Symbol {
        text: [
            byte_at(text, 0),
            byte_at(text, 1),
            byte_at(text, 2),
            byte_at(text, 3),
            byte_at(text, 4),
            byte_at(text, 5),
            byte_at(text, 6),
            byte_at(text, 7),
        ],
    }
}

// A byte of a text; NUL behind its end.
fn byte_at(text: &[u8], at: usize) -> u8
    ensures { result ≡ get_or text.now at 0 }
{
    if at < text.len() { text[at] } else { 0 }
}

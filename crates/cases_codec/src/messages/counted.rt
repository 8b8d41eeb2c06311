//! The numbers that the frames of a connection imply.

use crate::messages::messages::message_in;
use fixp_msgs::Counter;
use sbe_prim::Order;
use std::alloc::{AllocError, Global};

/// The byte order of a frame: big where its encoding type is 0x5BE0.
fn order_of(frame: &[u8]) -> Order {
    match frame {
        [_, _, _, _, 0x5B, 0xE0, ..] => Order::Big,
        _ => Order::Little,
    }
}

/// The implied number of a frame's message, behind the frames before it.
pub fn number_line(
    alloc: Global,
    counter: &mut Counter,
    name: &str,
    frame: &[u8],
) -> Result<String, AllocError> {
    let message = message_in(frame);
    if message.len() < 8 {
        return format!(in alloc; "  {name} no header");
    }
    let number = counter.see(order_of(frame), message);
    format!(in alloc; "  {name} {number:?}")
}

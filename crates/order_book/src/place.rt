//! Where an order stands in the queue of its symbol and side.

ghost use Rattle.std.specs.Prelude.{◌≡◌, ◌-◌, ◌^◌, negsuc, ◌≤ℤ◌};
ghost use Rattle.order_book.specs.Index.{rank_of, place_of, other, front_of, end_of};

use crate::entries::BookOrder;
use order_desk::{Side, Symbol};

/// A place in a queue: by symbol and side, then the best price first, then by arrival.
#[derive(Clone, Copy, PartialEq, Eq, PartialOrd, Ord)]
pub struct Place {
    /// The symbol of the queue.
    pub symbol: Symbol,
    /// The side of the queue.
    pub side: Side,
    /// The price, as a number that is less where the price is better for who meets it.
    pub rank: i64,
    /// The number under which the order came.
    pub arrival: u64,
}

/// A price as a number that is less where the price is better for who meets it.
fn rank(side: Side, price: i64) -> i64
    ensures rank { result ≡ rank_of side price }
    ensures low { negsuc (2 ^ 63 - 1) ≤ℤ rank_of side price }
{
    match side {
        Side::Sell => price,
        Side::Buy => -1 - price,
    }
}

/// The place of an order that came under this number.
pub fn place_of(arrival: u64, order: &BookOrder) -> Place
    ensures place { result ≡ place_of arrival order.now }
    ensures low { negsuc (2 ^ 63 - 1) ≤ℤ rank_of order.now.side order.now.price }
{
    Place {
        symbol: order.symbol,
        side: order.side,
        rank: rank(order.side, order.price),
        arrival,
    }
}

fn other(side: Side) -> Side
    ensures { result ≡ other side }
{
    match side {
        Side::Buy => Side::Sell,
        Side::Sell => Side::Buy,
    }
}

/// The first place at which an order may rest that this one meets.
pub fn front_of(incoming: &BookOrder) -> Place
    ensures { result ≡ front_of incoming.now }
{
    Place {
        symbol: incoming.symbol,
        side: other(incoming.side),
        rank: i64::MIN,
        arrival: 0,
    }
}

/// The last place at which an order may rest that this one meets.
pub fn end_of(incoming: &BookOrder) -> Place
    ensures end { result ≡ end_of incoming.now }
    ensures low { negsuc (2 ^ 63 - 1) ≤ℤ rank_of (other incoming.now.side) incoming.now.price }
{
    let side = other(incoming.side);
    Place {
        symbol: incoming.symbol,
        side,
        rank: rank(side, incoming.price),
        arrival: u64::MAX,
    }
}

//! What a book holds and what it makes of it: orders, each with what is left of it, and matches.

use order_desk::{Side, Symbol};

/// An order of the book: one that comes in, or one that rests.
#[derive(Clone, Copy)]
pub struct BookOrder {
    /// Its identifier, the client's own; less than 2^64 - 1.
    pub cl_id: u64,
    /// Its side.
    pub side: Side,
    /// What is bought or sold.
    pub symbol: Symbol,
    /// How many are left of it.
    pub quantity: u32,
    /// The price of one, in ten-thousandths.
    pub price: i64,
}

/// A match of an order that comes in with one that rests.
#[derive(Clone, Copy)]
pub struct Fill {
    /// The identifier of the order that rests.
    pub cl_id: u64,
    /// How many are traded.
    pub quantity: u32,
    /// The price of one, in ten-thousandths: that of the order that rests.
    pub price: i64,
}

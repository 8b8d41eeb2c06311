//! Orders as their readers see them: enums and structs, with no raw number but identifiers, quantities and prices.

/// What a message of the order schema asks for.
#[derive(Clone, Copy, Debug)]
pub enum Order {
    /// To buy or to sell.
    New(NewOrder),
    /// To take back an earlier order.
    Cancel {
        /// The identifier of this request; less than 2^64 - 1.
        cl_id: u64,
        /// The identifier of the order that is to be taken back; less than 2^64 - 1 where it is one.
        orig: u64,
    },
}

/// An order to buy or to sell.
#[derive(Clone, Copy, Debug)]
pub struct NewOrder {
    /// Its identifier, the client's own; less than 2^64 - 1.
    pub cl_id: u64,
    /// Its side; none where the message has a number that the schema does not list.
    pub side: Option<Side>,
    /// What is bought or sold.
    pub symbol: Symbol,
    /// How many.
    pub quantity: u32,
    /// The price of one, in ten-thousandths (the mantissa; the exponent is -4).
    pub price: i64,
}

/// Whether an order buys or sells.
#[derive(Clone, Copy, Debug, PartialEq, Eq, PartialOrd, Ord, Hash)]
pub enum Side {
    /// It buys, at its price or below.
    Buy,
    /// It sells, at its price or above.
    Sell,
}

/// The name of what is bought or sold: up to eight characters, with NUL behind them.
#[derive(Clone, Copy, Debug, PartialEq, Eq, PartialOrd, Ord, Hash)]
pub struct Symbol {
    /// The eight bytes.
    pub text: [u8; 8],
}

/// Why there is no order.
#[derive(Clone, Copy, Debug)]
pub enum OrderFault {
    /// The payload is no message of the order schema that asks for something, or has no identifier.
    NotAnOrder,
    /// There is not enough memory.
    Memory,
}

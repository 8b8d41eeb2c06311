//! A price-time order book: orders rest by price and then by arrival, and an order that comes in meets the best of the other side
//! first. The book finds its orders by sorted maps; what it reports and keeps is said over one list of resting orders.
#![tactic(auto)]

mod admission;
mod book;
mod entries;
mod laws;
mod matching;
mod place;
mod shelf;

pub use book::Book;
pub use entries::{BookOrder, Fill};
pub use laws::{
    best_is_unbeaten, book_in_range, book_stays_uncrossed, matches_are_even, quantities_are_kept,
    reports_go_on,
};

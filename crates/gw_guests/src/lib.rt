//! Guests of a listener as a trait: connections of which it is not known yet whose they are, which are looked at, and then lent or turned away.
//! Relies on `gw_links` for links, whose front can be looked at.
#![tactic(auto)]

pub use guests::{Arrived, Guests, Wakes};
pub use peek::Peek;

mod guests;
mod peek;

//! Guests in memory: tapes whose front can be looked at, and a listener to which they come in order. They tell their content exactly. Relies on
//! `gw_guests` for the traits, and on `gw_link_fakes` for the tapes.
#![tactic(auto)]

pub use guest::MemGuest;
pub use hall::MemGuests;

mod guest;
mod hall;

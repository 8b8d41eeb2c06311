//! The porch of a port: whoever connects is a guest there until its first whole frame came, and only who gives a session's keys is let in. The porch is
//! looked after by whoever waits at it, the dialer or the link that is lent, so that it has no thread and no lock. Relies on `conn_keys` for the judgement of
//! a first frame and on `gw_sockets` for sockets. The edge that is trusted.
#![tactic(auto)]

mod claim;
mod guest;
mod guests;
mod hall;
mod link;
mod notice;
mod places;
mod porch;
mod seat;

pub use guests::PortGuests;
pub use link::PortLink;

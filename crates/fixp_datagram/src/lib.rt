//! Recoverable and idempotent flows in datagrams that may be lost, repeated and reordered: what a datagram is in bytes, the
//! receiver, and the laws of both over any network of them. It stands on frames, on Sequence and on the session model.
#![tactic(auto)]

mod datagram;
mod laws;
mod packing;
mod receiver;
mod samples;

pub use datagram::{Datagram, DgFault, MOST_BYTES, open_datagram};
pub use laws::{
    asks_known, calls_are_deliveries, cut_is_delivered, cut_is_written, deliveries_are_events,
    idempotent_grows, idempotent_has_each_once, next_grows, one_datagram, receiver_follows,
    recoverable_grows, recoverable_is_prefix,
};
pub use packing::pack;
pub use receiver::{DgReceiver, DgSeen, MOST_ASKED, Start};
pub use samples::{
    edges_sample, idempotent_sample, packed_sample, recoverable_sample, restarted_sample,
};

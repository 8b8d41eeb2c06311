//! A life that is fed: the connections of a dialer, one after another, and beside them the feeder of lines that come while they last. Relies on
//! `conn_serve` for the connections, on `conn_feed` for the lines, on `conn_door` for what both tell each other, and on std's threads.
#![tactic(auto)]

mod feeding;
mod serving;

pub use serving::{Fed, feed_lent, serve_feeding};

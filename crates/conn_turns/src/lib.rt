//! What a turn of a connection is: what one end sees of the connection between two turns, what a turn does, and which calls of
//! the session machine it makes, as definitions; the types of what it answers and tells; and laws over the frames that it takes.
//! The code of a turn stands one layer up.
#![tactic(auto)]

mod answer;
mod laws;
mod news;

pub use answer::{TurnEnd, TurnFault};
pub use laws::{frames_deliver_applied, frames_join, frames_make_calls, work_makes_calls};
pub use news::{News, NewsItem};

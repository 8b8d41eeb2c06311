//! Identifiers of sessions in a row, at most 512, each once, and the place of any of them, found by a binary search.
//! A router of frames or of connections stands on it. It takes no memory beyond its two vectors.
#![tactic(auto)]

mod laws;
mod sorted;
mod table;

pub use laws::{first_is_one, stands_once};
pub use table::{MOST_ROUTES, Routes, RoutesFault};

//! The bytes of a message from its lines: straight from them, with no tree of its values, where they are in the strict form and
//! the message has no fault; by a tree else, which tells what is wrong. It stands on the text of `sbe_text`, the wider one of
//! `text_names` and the writer's steps of `sbe_encode`.
#![tactic(auto)]

mod blocks;
mod front;
mod items;
mod message;
mod numbers;

pub use front::{Rooms, Unwritten, write_front};
pub use message::{Sheet, write_text};

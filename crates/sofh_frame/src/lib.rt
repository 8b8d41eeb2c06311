//! Frames of the Simple Open Framing Header: a length and an encoding type before each message.
//! Relies on `sbe_prim` for the byte order.
#![tactic(auto)]

mod buffer;
mod header;
mod laws;
mod pieces;

pub use buffer::{Framer, ROOM};
pub use header::{FirstFrame, next};
pub use laws::{bytes_are_split, split_begins, splits_are_one};
pub use pieces::{End, OwnedFrame, Split, split_pieces};
pub use sbe_prim::Order;

//! The decoder of messages of Simple Binary Encoding 1.0: the message that bytes spell by the plan of a schema, or the
//! first fault of bytes that spell none; a view that reads fields where they stand; and the steps of both, for who walks over
//! a message and keeps no tree of it. It stands on the grammar.
#![tactic(auto)]

mod blocks;
mod bytes;
mod data;
mod decoding;
mod error;
mod header;
mod items;
mod skip;
mod value;
mod viewing;

pub use blocks::{Dimension, read_dimension};
pub use bytes::{Reading, is_in};
pub use data::datum_bytes;
pub use decoding::decode;
pub use error::DecodeError;
pub use header::{Header, layout_by, read_header};
pub use items::read_whole;
pub use sbe_grammar::DecodeFault;
pub use value::{FieldView, Value, value_in};
pub use viewing::{MessageView, view};

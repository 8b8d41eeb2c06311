//! Messages of Simple Binary Encoding 1.0 written as bytes: the canonical encoding by the plan of a schema, or the
//! first fault of a message that may not be written.
#![tactic(auto)]

mod blocks;
mod bytes;
mod data;
mod fault;
mod items;
mod laws;
mod message;
mod range;
mod shape;

pub use blocks::{holds_dimension, write_dimension};
pub use bytes::write_zeros;
pub use data::write_datum;
pub use fault::{EncodeError, EncodeFault};
pub use items::{Extent, end_block, write_integer, write_item};
pub use laws::{canonical_reads_back, faultless_where_writable};
pub use message::{LONGEST, encode, encode_into, write_header};
pub use shape::holds_numbers;

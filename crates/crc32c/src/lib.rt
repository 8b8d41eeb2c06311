//! CRC-32C, the checksum of Castagnoli's polynomial: of bytes, and of bytes that come in pieces.
//! It stands on nothing but std, and takes no memory.
#![tactic(auto)]

mod laws;
mod sum;
mod table;

pub use laws::{published_sums, short_changes_show};
pub use sum::{crc32c, update};

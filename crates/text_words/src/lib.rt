//! The lines of a text, and numbers, bytes and addresses as its words: the digits that a line is written in, decimals that are read
//! back as they are written, and the words of a command line that name a connection. Relies on std for numbers and addresses, on `itoa` for decimals
//! and on `hex`.
#![tactic(auto)]

mod address;
mod decimal;
mod digits;
mod lines;

pub use address::{parse_address, positive};
pub use decimal::{number, number_before};
pub use digits::{push_decimal, push_hex, push_number};
pub use lines::{count_lines, first_line};

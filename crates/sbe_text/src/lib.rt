//! Messages of Simple Binary Encoding 1.0 as lines of text, for people and for
//! tools, and back (this project's profile). It stands on the plans of
//! `sbe_layout`, the values of `sbe_value` and the decoder's steps.
#![tactic(auto)]

mod error;
mod laws;
mod names;
mod parse;
mod path;
mod print;
mod spare;
mod token;
mod values;
mod wire;

pub use error::{Refusal, TextError};
pub use laws::printed_reads_back;
pub use parse::{
    element, first_message, next_message, parse_message, read_end, read_layout, refused_line,
};
pub use path::{names_begin, open_entry, open_group};
pub use print::{print_message, write_lines, write_named_lines};
pub use spare::Spare;
pub use token::{Count, behind, datum, entry_count, leading_digits, value};
pub use wire::{Draft, print_named_wire, print_wire};

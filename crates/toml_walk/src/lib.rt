//! The walk over the keys of TOML tables: what stands at a key, and the first
//! fault with its path.
//! It stands on `toml` and on the paths of the value types.
#![tactic(auto)]

mod document;
mod fault;
mod keys;
mod reader;
mod value;

pub use document::read_document;
pub use fault::{TomlFault, deepened};
pub use keys::{deny_unknown_keys, missing, natural_at, natural_or, out_of_range, under_key};
pub use reader::{
    Names, Numbers, Reader, get_or_default, list_or_empty, optional, read_list, required,
    required_list,
};
pub use value::{is_name, read_held, read_name, read_natural, read_number, read_text, wide_number};

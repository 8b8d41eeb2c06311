//! The TOML spelling of schemas of Simple Binary Encoding 1.0.
//! It stands on `toml`, on the walk over keys and on the schema types.
#![tactic(auto)]

mod fault;
mod groups;
mod messages;
mod text;
mod types;
mod words;

pub use fault::{ConfigFault, TEXT_LIMIT};
pub use text::read_schema;
pub use toml_walk::TomlFault;

//! The TOML text of schemas of Simple Binary Encoding 1.0, and the law that it reads back as the schema.
//! It stands on `toml`, on the schema types and on what `schema_toml` says that a text spells.
#![tactic(auto)]

mod messages;
mod schema;
mod table;
mod types;
mod words;

pub use schema::print_schema;

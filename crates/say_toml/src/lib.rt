//! What stands in a TOML text, for what is said of it: where a key or a table stands, what its value is, and which rule of a schema it
//! breaks, in words.
#![tactic(auto)]

mod place;
mod schema;
mod table;
mod value;

pub use schema::{Broken, schema_fault};
pub use table::{PRIMITIVES, push_where};
pub use value::{found_at, last_key, list_key, push_value};

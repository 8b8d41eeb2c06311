//! Configuration texts: from the text of a schema to the schema, checked, and to the plan of its messages.
//! It stands on the text of schemas, on their check and on their layout.
#![tactic(auto)]

mod loading;

pub use loading::{load, load_checked};
pub use schema_toml::TEXT_LIMIT;

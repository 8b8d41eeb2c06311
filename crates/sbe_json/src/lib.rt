//! The elements of a message as members of a JSON object, by the plan of its schema. Relies on `sbe_layout` for the plan and on the kit's `json`.
#![tactic(auto)]

mod fields;
mod names;
mod values;

pub use fields::write_message;
pub use values::{text_of, write_text};

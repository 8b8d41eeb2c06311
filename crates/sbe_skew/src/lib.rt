//! How the versions of a schema of Simple Binary Encoding 1.0 relate: what an older version has of a schema and of
//! a message, and whether one schema is a later version of another. It stands on the layout of messages and on their grammar.
#![tactic(auto)]

mod extending;
mod fault;
mod laws;
mod projecting;
mod restricting;
mod same_types;

pub use extending::extends;
pub use fault::SkewFault;
pub use laws::{later_absent, older_is_checked, older_reader, older_version};
pub use projecting::project;
pub use restricting::restrict;

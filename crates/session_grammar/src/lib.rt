//! The session messages of FIXP 1.1 as a schema, a value of the logic for any version, and by the grammar of messages of Simple Binary
//! Encoding 1.0: bytes spell a session message exactly where they spell its tree of values by the plan of that schema, at any
//! version from 1 on, and a reader of version 0 finds what that version has of it. Each function has an empty body: its clause is a law.
#![tactic(auto)]

mod grammar;
mod schema;

pub use grammar::{every_tree, older_reads, short_alike, spelled_alike};
pub use schema::{projects_to_zero, session_blocks, session_is_checked};

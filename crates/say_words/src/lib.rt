//! Text from outside, as it may be shown on a terminal: in quotes, with what moves the cursor or is not seen escaped.
#![tactic(auto)]

mod escape;

pub use escape::{push_all, push_file, push_path, push_quoted, quoted};

//! What is wrong with CONFIG, in lines for people: the place, what was found there, and what would be right. What is quoted from a
//! file or from the command line is escaped.
#![tactic(auto)]

mod admitted;
mod config;
mod differing;

pub use config::{Wanted, push_config_fault};
pub use differing::push_difference;

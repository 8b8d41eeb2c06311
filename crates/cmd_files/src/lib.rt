//! A command over the files that its words name: the usage of the words, a run over files, and the reports of runs. Relies on `cmd_run` for
//! what a command does, and on `say_session` for what a device says of itself.
#![tactic(auto)]

mod again;
mod files;
mod report;
mod usage;

pub use files::run_over_files;
pub use report::{Report, finish, print_status};
pub use usage::{VERSION, asked, usage_fault};

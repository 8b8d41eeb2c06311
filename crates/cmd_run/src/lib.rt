//! The commands of the gateway over devices of any kind: the words, the configuration, the work, each command's in a crate of
//! its own. Whoever calls `run` opens the devices and reports how it ended.
#![tactic(auto)]

mod commands;
mod laws;
mod words;

pub use cmd_answer::one_answer;
pub use cmd_base::{Bad, JournalCause, Outside, Status, Which};
pub use cmd_codec::Shown;
pub use commands::run;
pub use jr_judge::one_verdict_of_box;
pub use laws::{
    answer_completes, check_completes, decode_completes, encode_completes, format_completes,
    journal_completes, migrate_completes,
};
pub use words::{Command, command_of};

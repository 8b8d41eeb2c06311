//! The script of a soak: a rehearsal of a number of messages that is made from that number alone. Relies on `cmd_script` for what a script is.
#![tactic(auto)]

mod laws;
mod soak;

pub use laws::{soaks_deal_rows, soaks_send_all};
pub use soak::{SOAK, soak_script};

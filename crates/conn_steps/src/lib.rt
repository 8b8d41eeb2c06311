//! The answer to one frame of a turn: the machine replies to it; its message is gathered, or the record of its act made stable in the inbox
//! and what it tells told, behind all that was gathered; and then its reply is written. What is gathered is made stable in one call. It
//! knows neither the connection nor the outbox. Relies on `fixp_end` for the replies, on `jr_kept` for the inbox, and on `conn_turns` for
//! what a turn is and tells.
#![tactic(auto)]

mod frames;
mod gathered;
mod records;

pub use frames::{answer_frame, make_stable};
pub use gathered::Gathered;

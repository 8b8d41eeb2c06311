//! The commands `accept` and `connect` over devices of any kind, where INPUT is read as it comes and ACCEPTED is told what became of its lines: CONFIG,
//! the journals with the outbox first, OUT, which goes on with what earlier runs told, and then one life of a session that is fed. Relies on
//! `cmd_session` for the boxes and the end of a session, on `cmd_base` for statuses, on `conn_out` for OUT, and on `conn_fed` for the life.
#![tactic(auto)]

mod command;
mod going_on;
mod life;
mod outside;

pub use cmd_session::Role;
pub use command::run_feeding;
pub use outside::FeedOutside;

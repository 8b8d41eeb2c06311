//! Laws of a connection: over any list of calls of a session machine, what is accepted and applied of the peer's flow, what is
//! written of the own one, and what is told; and each message that it writes has numbers that fit their fields, where its
//! configuration and what comes to it do. Each function has an empty body; its clause is a statement about the definitions that the
//! machine's code meets.
#![tactic(auto)]

mod connections;
mod replying;
mod samples;
mod standing;
mod writing;

pub use connections::{
    connection_kept, connection_serves, life_refused, life_refused_held, life_refused_tail,
    life_serves, part_is_written, refused_held_kept, refused_kept, tail_kept, writing_goes_on,
};
pub use replying::{frame_hears, frame_writes, pieces_are_frames};
pub use samples::course_sample;
pub use standing::{
    begins_again, call_keeps, calls_go_on, calls_keep, connection_begins, stands_longer,
    state_is_run, waiting_grows,
};
pub use writing::{spelled_fits, written_is_legal};

//! Laws of two ends of a session. Over bytes: what one end accepts on a connection is of what the other wrote on it, since the bytes
//! that it read are a beginning of those that the other wrote. Over turns: what the links gave and took over the turns of their
//! connections makes them such ends, and so each inbox holds of the other's outbox what the session guarantee says; also of two ends that are
//! driven turn by turn over pipes, each over any number of lives. Each function has an empty body; its clause is a statement about the definitions.
#![tactic(auto)]

mod driving;
mod hearing;
mod loops;
mod meeting;
mod reading;
mod refusing;
mod samples;

pub use driving::{
    bytes_move, cut_ends, leg_begins, leg_ends, life_ends, life_fails, stories_hold, turn_carries,
    turn_goes_on,
};
pub use hearing::linked_bytes;
pub use loops::{loops_are_a_session, loops_are_ends, loops_go_on, loops_hold, sent_are_whole};
pub use meeting::{ends_go_on, ends_hold, links_hold, session_of_ends};
pub use reading::{all_is_read, event_is_carried, written_is_read};
pub use refusing::{closing_is_deaf, nothing_more, refusal_ends};
pub use samples::{going_on_sample, handshake_sample, port_sample, turns_sample};

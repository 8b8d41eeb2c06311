//! Laws of the turns of a connection, in the words of the laws over connections: each call of a turn may come where it came, so
//! a connection that is a list of turns is one that a life may have served; and what the loop's turn promises is such a turn. Each
//! function has an empty body; its clause is a statement about the definitions that the loop's contract is written in.
#![tactic(auto)]

mod legs;
mod promised;
mod turns;

pub use legs::{
    given_came, given_up_begins, held_awaits, refused_waits, sent_are_written, tried_adds,
    turns_refused, turns_refused_held, turns_refused_tail, turns_run, turns_serve,
};
pub use promised::{cut_is_one, turn_is_one};
pub use turns::{cut_adds, cut_may_stand, turn_adds, turn_may_stand};

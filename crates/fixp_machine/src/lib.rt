//! The session machine: its state, its calls and what each makes of it, as the product is written in; and what it keeps to: what holds
//! of each reply of the reply table, and how each frame grows the inbox, as the session model has it. The functions have empty
//! bodies; their clauses are statements about the definitions that the machine's code meets.
#![tactic(auto)]

mod fitting;
mod growth;
mod machine;
mod sound;

pub use fitting::acts_fit;
pub use growth::{
    accepted_frame_grows, begins_agreeing, frame_tells, held_grows, holds_what_came,
    own_keeps_agreeing, refused_frame_spares,
};
pub use machine::{calls_keep_line, calls_keep_sound, line_goes_on, window_goes_on};
pub use sound::{holding_goes_on, sound_goes_on};

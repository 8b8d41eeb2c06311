//! The window of a recoverable flow: messages that came past a gap are held until the gap before them is filled, and then
//! applied. It relies on `flow_recover` for the numbers and for what announcements and messages make of them, on the frames and
//! ranges of `fixp_msgs`, and on the growth of `session_model`.
#![tactic(auto)]

mod laws;
mod place;
mod receiver;
mod window;

pub use laws::{
    delivers_what_is_taken, front_by_front, gap_is_missing, grows_later, grows_recoverable,
    grows_with_window, holds_what_came, stays_in_reach, takes_chain, takes_in_order, window_rows,
};
pub use receiver::Receiver;
pub use window::Window;

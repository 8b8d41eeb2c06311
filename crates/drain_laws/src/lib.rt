//! The measure of what two ends of one session still have to do, and that it falls: with each message that one of them reads, and
//! with each other call, but for a heartbeat; and that nothing which one of them waits for is lost or doubled while a connection goes
//! on. Each function has an empty body; its clause is a statement about the definitions that the machine's code meets.
#![tactic(auto)]

mod beginning;
mod calls;
mod evens;
mod frames;
mod negotiation;
mod samples;

pub use beginning::{begins_fall, idle_within};
pub use calls::calls_fall;
pub use evens::{calls_even, fills_stay, replies_even};
pub use frames::frames_fall;
pub use negotiation::replies_negotiate;
pub use samples::{
    counts_sample, falls_sample, gap_sample, idle_sample, load_sample, negotiation_sample,
};

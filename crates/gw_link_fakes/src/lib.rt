//! The live outside of the gateway in memory: pipes, tapes, a dialer over tapes and a clock. They tell their content
//! exactly, and fail at the calls that they are told to. Relies on `gw_links` for the traits, and on `gw_fakes` for the
//! calls that fail.
#![tactic(auto)]

pub use clock::MemClock;
pub use dialer::MemDialer;
pub use gw_fakes::Calls;
pub use pipe::{MemLink, Pipe, Side};
pub use tape::MemTape;

mod clock;
mod dialer;
mod lane;
mod pipe;
mod tally;
mod tape;

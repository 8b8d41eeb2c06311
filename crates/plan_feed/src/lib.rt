//! Lines that give payloads to senders, one at a time as they come: what each says, why one gives nothing, and the pieces in which
//! payloads go. Relies on `plan_text` for what a line gives, and on `hex`.
#![tactic(auto)]

mod laws;
mod piece;
mod reading;
mod wrong;

pub use laws::{givers_are_short, wrong_gives_nothing};
pub use piece::Piece;
pub use reading::{Fed, read_line};
pub use wrong::{Wrong, push_wrong};

//! The gate at which the senders of an end take turns: an outbox under a turn lock. Relies on `gate_turn` for the turns and
//! for what a caller's pass knows, and on `jr_kept` for the outbox.
#![tactic(auto)]

mod gate;
mod kept;
mod submission;
mod told;

pub use gate::Gate;
pub use kept::{Kept, Look};
pub use submission::Submission;

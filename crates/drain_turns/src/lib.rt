//! Laws of the turns of two ends of one session: what is left to be done falls with each of them. Each function has an empty body; its
//! clause is a statement about the definitions that the loop's contract is written in.
#![tactic(auto)]

mod turns;

pub use turns::turns_fall;

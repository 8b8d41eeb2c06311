//! Laws of two ends of one session: of connections that both go on, what is under way between them is exactly what they wait for, each
//! step lowers what is left to do, and one of the two has something to do; and where one ends or closes its connection, the other has that to
//! read. Each function has an empty body; its clause is a statement about the definitions that the machine's code meets.
#![tactic(auto)]

mod acting;
mod agreeing;
mod closing;
mod falling;
mod samples;
mod shutting;
mod standing;

pub use acting::something_to_do;
pub use agreeing::agreed_holds;
pub use closing::{closing_to_do, ends_are_told};
pub use falling::{meets_fall, steps_fall};
pub use samples::measure_sample;
pub use shutting::{calls_shut, replies_shut};
pub use standing::standing_holds;

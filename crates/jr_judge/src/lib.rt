//! Whether the records of a journal are those of an outbox or of an inbox, read one after another in place, so that whoever only reads a
//! journal keeps it as it is and none of its records. Relies on `jr_boxes`, which counts the records of a box, and on `jr_segments`.
#![tactic(auto)]

mod counted;
mod judging;
mod laws;

pub use judging::judge;
pub use laws::one_verdict_of_box;

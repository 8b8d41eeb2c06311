//! The records of a journal, one after another as a source gives its bytes, in bounded memory. Relies on `jr_dated` for the records and for what
//! an image of a journal is.
#![tactic(auto)]

mod laws;
mod reader;

pub use laws::one_reading;
pub use reader::{End, Found, RecordReader};

//! The records of a journal with their moments, and their bytes in format 2.
//! Relies on `jr_record` for a record's other bytes.
#![tactic(auto)]

mod laws;
mod reading;
mod writing;

pub use laws::{dated_bounds, one_dated};
pub use reading::read_record;
pub use writing::{record_size, write_record};

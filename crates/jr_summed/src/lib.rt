//! The records of a journal of format 3: those of format 2, each with its sum behind it.
//! Relies on `jr_moments` for a record's other bytes, and on `crc32c` for the sum.
#![tactic(auto)]

mod laws;
mod reading;
mod writing;

pub use laws::{one_found, one_summed, short_changes_show, summed_bounds};
pub use reading::{Found, read_record};
pub use writing::{record_size, write_record};

//! The records of a journal: their bytes, the images that hold them, and why a call of a journal did not do what it was asked for.
//! Relies on `gw_outside` for lists of bytes and for calls of a disk that failed.
#![tactic(auto)]

mod faults;
mod laws;
mod reading;
mod record;
mod writing;

pub use faults::{AppendFault, FormatFault, OpenFault};
pub use laws::{one_record, one_verdict, record_bounds};
pub use reading::read_record;
pub use record::Record;
pub use writing::{record_size, write_record};

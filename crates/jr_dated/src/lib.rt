//! The records of a journal with their moments: their bytes in format 2, the images that hold them, and the trait that every
//! journal with moments meets. Relies on `jr_record` for the records and for what an image of either format is.
#![tactic(auto)]

mod faults;
mod formats;
mod journal;
mod laws;
mod limits;
mod reading;
mod writing;

pub use faults::FetchFault;
pub use formats::Format;
pub use journal::Journal;
pub use laws::{dated_bounds, one_dated, one_dated_verdict, one_format};
pub use limits::Limits;
pub use reading::read_record;
pub use writing::{record_size, write_record};

/// Records in order, as contracts see them a list.
pub type Records = lists::List<jr_record::Record>;

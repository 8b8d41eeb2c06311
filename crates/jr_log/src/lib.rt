//! Journals of format 1, whose records carry no moments: one is read, all of its records once from front to back, and moved to a disk of its own
//! as a journal of format 2. The old disk is never written; of the new one the first byte is written last. Relies on `jr_record` for the records'
//! bytes and for what an image holds, on `jr_dated` for the bytes of format 2, on `gw_outside` for the disk.
#![tactic(auto)]

mod clearing;
mod faults;
mod laying;
mod migrating;
mod scan;

pub use faults::MigrateFault;
pub use migrating::migrate;
pub use scan::{Found, read_journal};

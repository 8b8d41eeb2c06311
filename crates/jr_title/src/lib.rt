//! The title of a journal of format 3: whose journal it is, its 64 bytes, and what in it differs from what a configuration asks for.
//! Relies on `crc32c` for the sum, and on `fixp_msgs` and `fixp_shake` for flows and roles.
#![tactic(auto)]

mod comparing;
mod faults;
mod laws;
mod reading;
mod title;
mod writing;

pub use comparing::{Part, first_other};
pub use faults::{Field, TitleFault};
pub use laws::{one_other, one_reading, one_title, reads_back};
pub use reading::read_title;
pub use title::{Binding, Orders, Title, Which, WhoSends};
pub use writing::write_title;

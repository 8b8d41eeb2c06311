//! What every command stands on: the devices of a run, the statuses that it ends with and their causes, the reading of
//! texts and of CONFIG, the beginning of outputs, and the order of refusals. Relies on the contracts of devices, and on those of what
//! reads a configuration's text.
#![tactic(auto)]

mod configured;
mod outputs;
mod outside;
mod status;
mod text;

pub use configured::{Configured, read_config};
pub use jr_boxes::{JournalCause, Which};
pub use outputs::begin;
pub use outside::Outside;
pub use status::{Bad, Status};
pub use text::{INPUT_LIMIT, TextFault, read_text};

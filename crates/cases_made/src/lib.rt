//! One end of a session over journals in memory, driven turn by turn on one thread: its connection, its gate with the passes of all
//! its senders, and its inbox. A caller has its senders submit, begins and cuts connections, makes turns over any link, and reads
//! both journals at the end. And one end alone, without a link, that is told of frames and of other events. Relies on `conn_loop` for a
//! turn, on `fixp_end` for an end alone, on `gate_senders` for the gate, and on `gw_fakes` for the disks.
#![tactic(auto)]

mod driven;
mod entries;
mod journals;
mod names;
mod passes;
mod spoken;
mod standing;
mod told;
mod turning;

pub use driven::{DrivenEnd, Setup};
pub use entries::entries_of;
pub use journals::{Disks, Log, formatted, fresh_disks, open_outbox, records};
pub use names::{flow_of, role_of};
pub use spoken::{is_application, session_in};
pub use standing::Standing;
pub use told::{ID, ToldEnd};

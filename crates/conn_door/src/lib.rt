//! What the connections of a life and its senders tell each other, the senders of a life, and what it answers for both. It knows no
//! connection. Relies on `gate_staff` for the senders, on `fixp_end` for what an end was sent, on `gw_links`
//! for what wakes a connection, and on std's locks and threads.
#![tactic(auto)]

mod answer;
mod behind;
mod entrance;
mod senders;
mod signals;

pub use answer::{LifeEnd, ServeFault, answer_of, refused_submit};
pub use behind::submit_behind;
pub use entrance::Entrance;
pub use senders::{finish_by, submit_all};
pub use signals::Signals;

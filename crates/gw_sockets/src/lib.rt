//! The live outside of the gateway on the machine: sockets as links, those that listen, a dialer that connects, what wakes their links, and
//! the machine's clock. They tell nothing of what they carry, count their faults, and keep why they failed. The edge that is trusted.
#![tactic(auto)]

pub use address::{AddressFault, parse_address};
pub use binding::listen;
pub use clock::MachineClock;
pub use connect::ConnectDialer;
pub use reason::SocketReason;
pub use socket::{SocketLink, read_now, write_now};
pub use waiting::SocketWaker;

mod account;
mod address;
mod binding;
mod clock;
mod connect;
mod reason;
mod socket;
mod waiting;

//! Why a socket or a dialer failed, in words.

use crate::address::AddressFault;
use std::{fmt, io};

/// Why a call failed.
#[derive(Clone, Copy)]
pub enum SocketReason {
    /// What the system said.
    System(io::Error),
    /// The text is no address.
    Address,
    /// The connection led back to this end itself.
    Itself,
}

impl From<io::Error> for SocketReason {
    fn from(error: io::Error) -> Self {
        SocketReason::System(error)
    }
}

impl From<AddressFault> for SocketReason {
    fn from(_fault: AddressFault) -> Self {
        SocketReason::Address
    }
}

impl fmt::Display for SocketReason {
    fn fmt<W: fmt::Write>(&self, f: &mut fmt::Formatter<W>) -> fmt::Result {
        match self {
            SocketReason::System(error) => write!(f, "{error}"),
            SocketReason::Address => write!(f, "{AddressFault}"),
            SocketReason::Itself => write!(f, "the connection led back to this end itself"),
        }
    }
}

//! A socket that listens.

use crate::address::parse_address;
use crate::reason::SocketReason;
use mio::net::TcpListener;
use std::io::ErrorKind;
use std::net::{Net, SocketAddr};
use std::thread;
use std::time::{Clock, Duration};

/// How often an address is tried to be bound that is in use.
const TRIES: u64 = 20;

/// How long it waits between two tries, in milliseconds.
const PAUSE: u64 = 50;

/// A socket that listens at the address `A.B.C.D:PORT`, whose `accept` does not wait. Where the address is in use, it is tried again for about a second. As
/// many may wait to be accepted as the system allows, since who finds no room comes again a second later.
///
/// # Errors
/// `Address` where the text is none, and what the system says.
pub fn listen<R: Net + Clock>(rt: &R, address: &str) -> Result<TcpListener, SocketReason> {
    let address = SocketAddr::V4(parse_address(address)?);
    for _ in 0..TRIES {
        match TcpListener::bind(rt, address) {
            Ok(listener) => return Ok(listener),
            Err(error) if error.kind() == ErrorKind::AddrInUse => {
                thread::sleep(rt, Duration::from_millis(PAUSE));
            }
            Err(error) => return Err(SocketReason::System(error)),
        }
    }
    Ok(TcpListener::bind(rt, address)?)
}

//! The door of a session without credentials, and what opens it.

ghost use Rattle.std.specs.Prelude.{◌≡◌, false};

use conn_keys::{Keys, Knowing};
use gw_outside::Bytes;
use gw_porch::PortGuests;
use gw_watch::NoEar;
use std::alloc::Global;
use std::net::{Net, TcpListener, TcpStream};
use std::time::Clock;

/// A Negotiate that gives the keys.
pub const NEGOTIATE: [u8; 41] = [
    0x00, 0x00, 0x00, 0x29, 0xeb, 0x50, 0x19, 0x00, 0x01, 0x00, 0x11, 0xf0, 0x00, 0x00, 0x11, 0x11,
    0x11, 0x11, 0x11, 0x11, 0x11, 0x11, 0x11, 0x11, 0x11, 0x11, 0x11, 0x11, 0x11, 0x11, 0x01, 0x00,
    0x00, 0x00, 0x00, 0x00, 0x00, 0x00, 0x01, 0x00, 0x00,
];

/// The keys of the session.
fn keys(alloc: Global) -> Keys {
    Keys {
        session: [0x11; 16],
        credentials: Bytes::new(alloc),
    }
}

/// A door at this address, which is listened at already, for so many connections.
pub fn door_at<'a, R: Net<Listener = TcpListener, Stream = TcpStream> + Clock>(
    rt: &'a R,
    alloc: Global,
    ear: &'a NoEar,
    address: &'a str,
    most: u64,
) -> Knowing<PortGuests<'a, R, NoEar>>
    ensures { result.guests.is_lent ≡ false }
{
    let mut guests = PortGuests::new(rt, alloc, ear, address, keys(alloc), 1000);
    guests.listen();
    Knowing::new(guests, keys(alloc), most)
}

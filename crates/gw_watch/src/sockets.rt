//! The dialers over sockets and over guests, and the links of sockets, as what can be watched.

use crate::dialer::{Approach, Approaches};
use crate::link::HasPeer;
use conn_keys::Knowing;
use gw_guests::{Guests, Wakes};
use gw_sockets::{ConnectDialer, SocketLink};
use std::net::{Net, SocketAddr};
use std::time::Clock;

impl HasPeer for SocketLink {
    fn peer(&self) -> Option<SocketAddr> {
        SocketLink::peer(self)
    }
}

impl<R: Net + Clock> Approaches for ConnectDialer<'_, R> {
    fn approach(&mut self) -> Approach {
        if self.is_left() {
            Approach::Connects
        } else {
            Approach::AsBefore
        }
    }
}

// Guests tell themselves from when on they are listened for.
impl<G: Guests + Wakes> Approaches for Knowing<G> {
    fn approach(&mut self) -> Approach {
        Approach::AsBefore
    }
}

//! What a turn receives.

ghost use Rattle.std.specs.Prelude.{◌≡◌, ◌<◌, [], length, IsTrue, OnErr, IfOk, IfSome};
ghost use Rattle.gw_outside.specs.Faults.{HasCause};
ghost use Rattle.gw_links.specs.Links.{IsAnswer, IsWithin, Moved, gave, gives_lesser};
ghost use Rattle.sofh_frame.specs.Framing.{IsBytes};
ghost use Rattle.conn_loop.specs.Moving.{ReceivedOnce, interval_of, patience_of};

use crate::conn::Conn;
use gw_links::{Got, Link};
use gw_outside::Failed;

/// How long a receive waits at most where nothing is there, in milliseconds.
const LONGEST: u64 = 100;

/// One receive of a link, as the link answers it; what `into` has then are bytes.
fn receive_into<L: Link>(link: &mut L, into: &mut [u8], patience: u64) -> Result<Got, Failed>
    requires { 0 < length into.old }
    ensures bytes { IsBytes into.new }
    ensures count { IfOk result (λ got. IsWithin got (length into.new)) }
    ensures moves { Moved (L.told link.old) (L.told link.new) (L.carried link.old) (L.carried link.new) (gave result into.new) [] }
    ensures answer { IfOk result (λ got. IfSome (L.told link.old) (λ t. IsAnswer t got)) }
    ensures lesser { IsTrue L.eager → IfOk result (λ got. IfSome (L.told link.old) (λ t. gives_lesser t (length into.new) got)) }
    ensures stays { L.place link.new ≡ L.place link.old }
    ensures cause { HasCause (L.faults link.old) (L.faults link.new) result }
{
    link.recv(into, patience)
}

impl Conn {
    ghost use Rattle.conn_loop.specs.Conn.{line_of};

    /// The shorter of both ends' intervals, in milliseconds; this end's, until the peer has told its own.
    fn interval(&self) -> u64
        ensures { result ≡ interval_of (line_of self.now).machine }
    {
        let own = self.end.config().keepalive;
        let peer = self.end.peer_interval();
        if peer == 0 {
            return u64::from(own);
        }
        u64::from(own.min(peer))
    }

    /// How long the receive of a turn may wait where nothing is there, in milliseconds: not where there is, or may be, something to do
    /// without it.
    fn patience(&self) -> u64
        ensures { result ≡ patience_of self.now.took (line_of self.now) }
    {
        if self.took
            || self.waits
            || self.holds_frame()
            || self.holds_bad()
            || self.end.serving().is_some()
        {
            return 0;
        }
        LONGEST.min(self.interval() / 10)
    }

    /// Receives once into the framer's room, where there is some, and answers what it found.
    ///
    /// # Errors
    /// `Failed` where the link failed: nothing was received.
    pub(crate) fn receive<L: Link>(&mut self, link: &mut L) -> Result<Option<Got>, Failed>
        ensures received { IfOk result (ReceivedOnce L.eager (L.told link.old) (L.told link.new) (L.carried link.old) (L.carried link.new) (line_of self.old) (line_of self.new)) }
        ensures failed { OnErr result ((line_of self.new ≡ line_of self.old) × Moved (L.told link.old) (L.told link.new) (L.carried link.old) (L.carried link.new) [] []) }
        ensures stays { L.place link.new ≡ L.place link.old }
        ensures cause { HasCause (L.faults link.old) (L.faults link.new) result }
    {
        let patience = self.patience();
        let room = self.framer.room();
        if room.is_empty() {
            return Ok(None);
        }
        match receive_into(link, room, patience) {
            Ok(Got::Bytes(count)) => {
                self.framer.filled(count);
                Ok(Some(Got::Bytes(count)))
            }
            Ok(Got::Quiet) => Ok(Some(Got::Quiet)),
            Ok(Got::End) => {
                self.over = true;
                Ok(Some(Got::End))
            }
            Err(failed) => Err(failed),
        }
    }
}

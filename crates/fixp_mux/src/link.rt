//! A session's link over the router. It has no faults, and tells no content as a link: its own clauses say what its calls do to the session's
//! two buffers, and that no call changes another's.

ghost use Rattle.std.specs.Prelude.{◌≡◌, ◌⊎◌, ◌↔◌, ℕ, [], ◌<◌, ◌≤◌, ◌-◌, IsTrue, true, false, length, min, take, slice_get, None, Some, Ok, IfOk, IfSome, IsOk, OnErr};
ghost use Rattle.gw_outside.specs.Faults.{HasCause};
ghost use Rattle.gw_links.specs.Links.{IsAnswer, IsWithin, LinkTold, Moved, TookFront, gave, gives_lesser};
ghost use Rattle.gw_links.specs.declared.link.Got.TheVariants.{End, Quiet};
ghost use Rattle.fixp_mux.specs.State.{session_room};
ghost use Rattle.fixp_mux.specs.Calls.{Happens, received, sent};
ghost use Rattle.fixp_mux.specs.Linking.{HasNothing, MuxPlace, at_place};

use crate::mux::Mux;
use gw_links::{Got, Link};
use gw_outside::Failed;

/// The link of one session, lent by its router.
#[derive(Drop)]
pub struct MuxLink<'a> {
    pub(crate) mux: &'a mut Mux,
    pub(crate) place: usize,
    ghost within: { place < length mux.now.sessions },
}

impl Link for MuxLink<'_> {
    ghost told = { λ l. None };

    ghost carried = { λ l. None };

    ghost eager = { false };

    ghost Place = { MuxPlace };

    ghost place = { λ l. at_place l.mux.ghost_name l.place };

    ghost faults = { λ l. 0 };

    /// Gives the session's next bytes. It is quiet exactly where none wait and the transport goes on, and at its end exactly where none
    /// wait and the transport has ended. It does not fail.
    fn recv(&mut self, into: &mut [u8], _patience: u64) -> Result<Got, Failed>
        requires { 0 < length into.old }
        ensures count { IfOk result (λ got. IsWithin got (length into.new)) }
        ensures moves { Moved None None None None (gave result into.new) [] }
        ensures answer { IfOk result (λ got. IfSome None (λ (t : LinkTold). IsAnswer t got)) }
        ensures lesser { IsTrue false → IfOk result (λ got. IfSome None (λ (t : LinkTold). gives_lesser t (length into.new) got)) }
        ensures stays { at_place self.new.mux.ghost_name self.new.place ≡ at_place self.old.mux.ghost_name self.old.place }
        ensures cause { HasCause 0 0 result }

        ensures ok { IsOk result }
        ensures given { Happens self.old.mux.now (received self.old.place (gave result into.new)) self.new.mux.now }
        ensures quiet { (result ≡ Ok Quiet) ↔ (HasNothing self.old.place self.old.mux.now × (self.old.mux.now.has_ended ≡ false)) }
        ensures end { (result ≡ Ok End) ↔ (HasNothing self.old.place self.old.mux.now × (self.old.mux.now.has_ended ≡ true)) }
    {
        let count = self.mux.receive(self.place, into);
        if count > 0 {
            return Ok(Got::Bytes(count));
        }
        if self.mux.has_ended() {
            return Ok(Got::End);
        }
        Ok(Got::Quiet)
    }

    /// Puts bytes behind what the session sent before: as many as it has room for. It does not fail.
    fn send(&mut self, bytes: &[u8]) -> Result<usize, Failed>
        ensures count { IfOk result (λ n. n ≤ length bytes.now) }
        ensures moves { IfOk result (λ n. Moved None None None None [] (take n bytes.now)) }
        ensures front { OnErr result (TookFront None None None None bytes.now) }
        ensures some { IfOk result (λ n. IfSome None (λ (t : LinkTold). 0 < length bytes.now → 0 < t.room → 0 < n)) }
        ensures stays { at_place self.new.mux.ghost_name self.new.place ≡ at_place self.old.mux.ghost_name self.old.place }
        ensures cause { HasCause 0 0 result }

        ensures ok { IsOk result }
        ensures taken { IfOk result (λ n. Happens self.old.mux.now (sent self.old.place (take n bytes.now)) self.new.mux.now) }
        ensures room { IfOk result (λ n. IfSome (slice_get self.old.mux.now.sessions self.old.place) (λ s. n ≡ min (length bytes.now) (session_room - length s.output))) }
    {
        Ok(self.mux.send(self.place, bytes))
    }
}

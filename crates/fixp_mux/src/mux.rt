//! The router: sessions over one transport, each with a link of its own. It relies on the sessions and their rows of bytes; what is on the
//! wire it leaves to `pump`.

ghost use Rattle.std.specs.Prelude.{◌≡◌, ◌↔◌, ◌⊎◌, ℕ, ◌<◌, ◌≤◌, ◌-◌, length, min, take, slice_get, Ok, Err, IfOk, IfSome};
ghost use Rattle.routes.specs.Identifiers.{EachOnce, IsFirstRepeated};
ghost use Rattle.fixp_mux.specs.Calls.{Happens, received, released, sent};
ghost use Rattle.fixp_mux.specs.State.{new_mux, session_room};
ghost use Rattle.fixp_mux.specs.declared.mux.MuxMake.TheVariants as makes;

use crate::held::Held;
use crate::link::MuxLink;
use crate::router::Router;
use crate::sessions::Sessions;
use sofh_frame::Framer;
use std::alloc::Global;
use std::marker::Model;

/// The most sessions of one transport.
pub const MOST_SESSIONS: usize = 64;

/// Why there is no router for some sessions.
#[derive(Clone, Copy, Debug)]
pub enum MuxMake {
    /// An identifier that stands at an earlier place too.
    Doubled {
        /// The first such place, from 0.
        place: usize,
    },
    /// No identifier, or more than 64.
    Count,
    /// Want of memory.
    Memory,
}

/// Up to 64 sessions over one transport. Contracts see what each session is still to receive and what of it is still to be written, which
/// session the last Context read names and which the last one written, and what of the transport is not given out or not taken yet.
#[derive(Drop)]
pub struct Mux {
    pub(crate) router: Router,
    pub(crate) has_ended: bool,
}

impl Model for Mux {
    ghost use Rattle.fixp_mux.specs.State.{State};
    ghost use Rattle.fixp_mux.specs.Stepping.{state_of};

    ghost Value = { State };

    ghost view = { λ m. state_of m.router m.has_ended };
}

impl Mux {
    /// A router for the sessions with these identifiers, 1 to 64 of them. It takes all of its memory here: of each session 65,560 bytes
    /// either way, and of the transport as many.
    ///
    /// # Errors
    /// No identifier, or more than 64, which is looked for first; an identifier that stands twice, by its first place that is not the
    /// first one; want of memory.
    pub fn new(alloc: Global, ids: &[[u8; 16]]) -> Result<Mux, MuxMake>
        ensures value { IfOk result (λ m. m ≡ new_mux ids.now) }
        ensures once { IfOk result (λ m. EachOnce ids.now) }
        ensures count { (result ≡ Err makes.Count) ↔ ((length ids.now ≡ 0) ⊎ (64 < length ids.now)) }
        ensures doubled { (place : ℕ) → result ≡ Err (makes.Doubled place) → IsFirstRepeated ids.now place }
    {
        if ids.is_empty() || ids.len() > MOST_SESSIONS {
            return Err(MuxMake::Count);
        }
        let sessions = match Sessions::new(alloc, ids) {
            Ok(sessions) => sessions,
            Err(refused) => return Err(refused),
        };
        let Ok(framer) = Framer::new(alloc) else {
            return Err(MuxMake::Memory);
        };
        let Ok(unsent) = Held::new(alloc) else {
            return Err(MuxMake::Memory);
        };
        let router = Router {
            sessions,
            framer,
            unsent,
            at: 0,
            is_over: false,
        };
        Ok(Mux {
            router,
            has_ended: false,
        })
    }

    /// How many sessions there are.
    pub fn len(&self) -> usize
        ensures { result ≡ length self.now.sessions }
    {
        self.router.sessions.len()
    }

    /// The link of the session at a place, which is below their number, for as long as it is used.
    pub fn link(&mut self, place: usize) -> MuxLink<'_>
        requires { place < length self.old.sessions }
        ensures same { result.mux.ghost_name ≡ self.entry.ghost_name }
        ensures value { result.mux.now ≡ self.old }
        ensures place { result.place ≡ place }
    {
        MuxLink { mux: self, place }
    }

    /// Drops the frames of the session at a place from now on, as they are read. What it sent before is still written.
    pub fn release(&mut self, place: usize)
        requires { place < length self.old.sessions }
        ensures { Happens self.old (released place) self.new }
    {
        self.router.sessions.release(place);
    }

    /// Whether the transport has ended: `pump` has answered so, or a fault.
    pub fn has_ended(&self) -> bool
        ensures { result ≡ self.now.has_ended }
    {
        self.has_ended
    }

    /// The session at a place receives as many bytes as wait for it and `into` takes.
    pub(crate) fn receive(&mut self, place: usize, into: &mut [u8]) -> usize
        requires { place < length self.old.sessions }
        ensures count { IfSome (slice_get self.old.sessions place) (λ s. result ≡ min (length into.old) (length s.input)) }
        ensures within { result ≤ length into.new }
        ensures given { Happens self.old (received place (take result into.new)) self.new }
    {
        self.router.sessions.receive(place, into)
    }

    /// The session at a place sends as many bytes as it has room for.
    pub(crate) fn send(&mut self, place: usize, bytes: &[u8]) -> usize
        requires { place < length self.old.sessions }
        ensures count { IfSome (slice_get self.old.sessions place) (λ s. result ≡ min (length bytes.now) (session_room - length s.output)) }
        ensures within { result ≤ length bytes.now }
        ensures taken { Happens self.old (sent place (take result bytes.now)) self.new }
    {
        self.router.sessions.send(place, bytes)
    }
}

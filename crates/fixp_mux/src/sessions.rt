//! The sessions of a router by their places, and which of them the last Contexts read and written name. It relies on the table of identifiers,
//! and on each session's two rows of bytes.

ghost use Rattle.std.specs.Prelude.{◌≡◌, ◌+◌, ◌-◌, ◌<◌, ◌≤◌, length, map, min, take, slice_get, None, Ok, Err, IfOk, IfSome};
ghost use Rattle.routes.specs.Identifiers.{EachOnce, IsFirstRepeated};
ghost use Rattle.routes.specs.declared.table.RoutesFault.TheVariants as faults;
ghost use Rattle.sofh_frame.specs.Framing.{Frame};
ghost use Rattle.fixp_mux.specs.Begun.{IsAnnounced, IsBegun, IsBegunBetween};
ghost use Rattle.fixp_mux.specs.Calls.{Changes, Lets, Receives, Sends};
ghost use Rattle.fixp_mux.specs.Context.{carries, says};
ghost use Rattle.fixp_mux.specs.Routing.{IsNamed, IsRouted, table_of};
ghost use Rattle.fixp_mux.specs.State.{Session, new_session, session_room};
ghost use Rattle.fixp_mux.specs.declared.mux.MuxMake.TheVariants as makes;

use crate::channel::Channel;
use crate::context::{CONTEXT_SIZE, Saying, context_bytes, read_saying};
use crate::held::{Held, SESSION_ROOM};
use crate::mux::MuxMake;
use crate::routed::Routed;
use routes::{MOST_ROUTES, Routes, RoutesFault};
use sofh_frame::{FirstFrame, Order, next};
use std::alloc::{AllocError, Global};
use std::marker::Model;

/// The sessions, and those that were named last.
#[derive(Drop)]
pub(crate) struct Sessions {
    routes: Routes,
    channels: Vec<Channel>,
    named: Option<usize>,
    writing: Option<usize>,
}

impl Model for Sessions {
    ghost use Rattle.fixp_mux.specs.Routing.{IsTable, Table, table_of};

    ghost Value = { Table };

    ghost view = { λ s. table_of s.channels.items s.named s.writing };

    ghost invariant = { λ s. IsTable s.routes s.channels.items s.named s.writing };
}

/// Why there is no router where there is no table of its identifiers.
fn refused(fault: RoutesFault) -> MuxMake
    ensures doubled { (place : _) → result ≡ makes.Doubled place → fault ≡ faults.Doubled place }
    ensures count { result ≡ makes.Count → ⊥ }
{
    match fault {
        RoutesFault::Doubled { place } => MuxMake::Doubled { place },
        RoutesFault::Memory => MuxMake::Memory,
    }
}

/// A session for each of these identifiers.
fn open_all(alloc: Global, ids: &[[u8; 16]]) -> Result<Vec<Channel>, AllocError>
    ensures { IfOk result (λ channels. channels.items ≡ map new_session ids.now) }
{
    let mut channels = Vec::with_capacity(alloc, ids.len())?;
    for id in ids {
        channels.push(Channel::new(alloc, id)?)?;
    }
    Ok(channels)
}

impl Sessions {
    /// The sessions with these identifiers, which are at most 512.
    ///
    /// # Errors
    /// An identifier that stands twice, by its first place that is not the first one; want of memory.
    pub(crate) fn new(alloc: Global, ids: &[[u8; 16]]) -> Result<Sessions, MuxMake>
        requires { length ids.now ≤ MOST_ROUTES }
        ensures value { IfOk result (λ s. s ≡ table_of (map new_session ids.now) None None) }
        ensures once { IfOk result (λ s. EachOnce ids.now) }
        ensures doubled { (place : _) → result ≡ Err (makes.Doubled place) → IsFirstRepeated ids.now place }
        ensures count { result ≡ Err makes.Count → ⊥ }
    {
        let routes = match Routes::new(alloc, ids) {
            Ok(routes) => routes,
            Err(fault) => return Err(refused(fault)),
        };
        let Ok(channels) = open_all(alloc, ids) else {
            return Err(MuxMake::Memory);
        };
        Ok(Sessions {
            routes,
            channels,
            named: None,
            writing: None,
        })
    }

    /// How many sessions there are.
    pub(crate) fn len(&self) -> usize
        ensures { result ≡ length self.now.sessions }
    {
        self.channels.len()
    }

    /// The place behind that of the session that was written last, or 0 where none was.
    pub(crate) fn behind_writing(&self) -> usize
        ensures { result ≤ length self.now.sessions }
    {
        match self.writing {
            Some(place) => place + 1,
            None => 0,
        }
    }

    /// The session at a place receives as many bytes as wait for it and `into` takes.
    pub(crate) fn receive(&mut self, place: usize, into: &mut [u8]) -> usize
        requires { place < length self.old.sessions }
        ensures count { IfSome (slice_get self.old.sessions place) (λ s. result ≡ min (length into.old) (length s.input)) }
        ensures within { result ≤ length into.new }
        ensures given { Changes place (Receives (take result into.new)) self.old.sessions self.new.sessions }
        ensures same { self.new ≡ record self.old { sessions = self.new.sessions } }
    {
        self.channels[place].receive(into)
    }

    /// The session at a place sends as many bytes as it has room for.
    pub(crate) fn send(&mut self, place: usize, bytes: &[u8]) -> usize
        requires { place < length self.old.sessions }
        ensures count { IfSome (slice_get self.old.sessions place) (λ s. result ≡ min (length bytes.now) (session_room - length s.output)) }
        ensures within { result ≤ length bytes.now }
        ensures taken { Changes place (Sends (take result bytes.now)) self.old.sessions self.new.sessions }
        ensures same { self.new ≡ record self.old { sessions = self.new.sessions } }
    {
        self.channels[place].send(bytes)
    }

    /// Drops the frames of the session at a place from now on.
    pub(crate) fn release(&mut self, place: usize)
        requires { place < length self.old.sessions }
        ensures released { Changes place Lets self.old.sessions self.new.sessions }
        ensures same { self.new ≡ record self.old { sessions = self.new.sessions } }
    {
        self.channels[place].release();
    }

    /// From now on frames are of the session with this identifier, if it is one of these.
    fn name(&mut self, id: &[u8; 16]) -> bool
        ensures { IsNamed self.old id.now result self.new }
    {
        let Some(place) = self.routes.find(id) else {
            return false;
        };
        self.named = Some(place);
        true
    }

    /// Gives a frame that is no Context to the session that was named last.
    fn give(&mut self, order: Order, message: &[u8]) -> Routed
        requires short { length message.now ≤ 16384 }
        requires carries { says (record { order = order; message = message.now }) ≡ carries }
        ensures { IsRouted self.old (record { order = order; message = message.now }) result self.new }
    {
        let Some(place) = self.named else {
            return Routed::NoContext;
        };
        if self.channels[place].is_released() {
            return Routed::Passed;
        }
        if !self.channels[place].has_room(6 + message.len()) {
            return Routed::Full;
        }
        self.channels[place].give_frame(order, message);
        Routed::Gave
    }

    /// Routes a frame that was read: a Context names the session of those behind it, and any other goes to the session named last.
    pub(crate) fn route(&mut self, order: Order, message: &[u8]) -> Routed
        requires least { 8 ≤ length message.now }
        requires most { length message.now ≤ 16384 }
        ensures { IsRouted self.old (record { order = order; message = message.now }) result self.new }
    {
        match read_saying(order, message) {
            Saying::Names(id) => {
                if self.name(&id) {
                    Routed::Passed
                } else {
                    Routed::OtherSession
                }
            }
            Saying::Malformed => Routed::Malformed,
            Saying::Carries => self.give(order, message),
        }
    }

    /// Writes a Context of the session at a place, where the last one written does not name it.
    fn announce(&mut self, place: usize, unsent: &mut Held)
        requires place { place < length self.old.sessions }
        requires room { length unsent.old + CONTEXT_SIZE ≤ SESSION_ROOM }
        ensures { IsAnnounced place self.old unsent.old self.new unsent.new }
    {
        let id = self.channels[place].id();
        if self.writing == Some(place) {
            return;
        }
        unsent.put(&context_bytes(&id));
        self.writing = Some(place);
    }

    /// Moves the next frame of the session at a place behind what is unsent, with its Context, and tells whether there was one and room
    /// for both. What is no frame, or a Context, stays.
    pub(crate) fn begin(&mut self, place: usize, unsent: &mut Held) -> bool
        requires { place < length self.old.sessions }
        ensures { IsBegun place self.old unsent.old result self.new unsent.new }
    {
        let FirstFrame::Frame {
            order,
            message,
            size,
        } = next(self.channels[place].output())
        else {
            return false;
        };
        let Saying::Carries = read_saying(order, message) else {
            return false;
        };
        if unsent.len() + CONTEXT_SIZE + size > SESSION_ROOM {
            return false;
        }
        self.announce(place, unsent);
        let (frame, _) = self.channels[place].output().split_at(size);
        unsent.put(frame);
        self.channels[place].drop_output(size);
        true
    }

    /// Moves the frames of the session at a place, as long as there is room, and tells whether there was one.
    #[tactic(auto, using(crate::proofs::Beginning::begin_less, crate::proofs::Beginning::begin_end))]
    fn begin_all(&mut self, place: usize, unsent: &mut Held) -> bool
        requires { place < length self.old.sessions }
        ensures { IsBegun place self.old unsent.old result self.new unsent.new }
    {
        let mut began = false;
        while self.begin(place, unsent) {
            began = true;
        }
        began
    }

    /// The same for the sessions from a place on to another.
    #[tactic(auto, using(crate::proofs::Beginning::between_none))]
    fn begin_between(&mut self, from: usize, to: usize, unsent: &mut Held) -> bool
        requires { to ≤ length self.old.sessions }
        ensures { IsBegunBetween from to self.old unsent.old result self.new unsent.new }
    {
        let mut began = false;
        for place in from..to {
            if self.begin_all(place, unsent) {
                began = true;
            }
        }
        began
    }

    /// Moves waiting frames behind what is unsent as long as there is room, those of the session behind the one written last first, and tells
    /// whether there was one.
    #[tactic(auto, using(crate::proofs::Beginning::around_before))]
    pub(crate) fn begin_frames(&mut self, unsent: &mut Held) -> bool
        ensures { IsBegunBetween 0 (length self.old.sessions) self.old unsent.old result self.new unsent.new }
    {
        let first = self.behind_writing();
        let behind = self.begin_between(first, self.len(), unsent);
        let before = self.begin_between(0, first, unsent);
        if behind {
            return true;
        }
        before
    }
}

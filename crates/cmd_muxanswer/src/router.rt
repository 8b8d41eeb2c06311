//! Frames are given to their sessions: a Context names the session of the frames behind it. Relies on `fixp_mux` for what a frame says.

ghost use Rattle.std.specs.Prelude.{◌≡◌, ◌≤◌, ℕ, List, [], length, IfOk, OnOk};
ghost use Rattle.sofh_frame.specs.Framing.{Frame};
ghost use Rattle.fixp_mux.specs.Context.{carries, names, says};
ghost use Rattle.cmd_config.specs.declared.settings.Settings.{Settings};
ghost use Rattle.cmd_muxanswer.specs.Sessions.{AreSessions};
ghost use Rattle.cmd_muxanswer.specs.Progress.{AreSeated, AreUsable, Holds, IsOpen, Routes};

use crate::seat::Seat;
use crate::sessions::Sessions;
use crate::unrouted::Unrouted;
use crate::wire::Written;
use fixp_mux::{Saying, read_saying};
use sofh_frame::Order;
use std::alloc::{AllocError, Global};

/// The sessions of the transport, and what they wrote.
#[derive(Drop)]
pub(crate) struct Router {
    pub(crate) sessions: Sessions,
    /// One for each session, in the same order.
    pub(crate) seats: Vec<Seat>,
    /// The place of the session that the last Context names.
    pub(crate) named: Option<usize>,
    pub(crate) written: Written,
}

/// A seat for each session.
fn open_seats(alloc: Global, sessions: &Sessions) -> Result<Vec<Seat>, AllocError>
    ensures count { IfOk result (λ seats. length seats.items ≡ length sessions.now) }
    ensures usable { IfOk result (λ seats. AreUsable seats.items) }
    ensures seated { IfOk result (λ seats. AreSeated sessions.now [] seats.items) }
{
    let mut seats = Vec::with_capacity(alloc, sessions.len())?;
    for place in 0..sessions.len() {
        seats.push(Seat::open(alloc, sessions.settings(alloc, place)?)?)?;
    }
    Ok(seats)
}

impl Router {
    /// A router to whose sessions no frame came yet.
    ///
    /// # Errors
    /// Want of memory.
    pub(crate) fn new(alloc: Global, sessions: Sessions) -> Result<Router, AllocError>
        requires { AreSessions sessions }
        ensures open { IfOk result IsOpen }
        ensures holds { IfOk result (λ r. Holds sessions [] [] [] r) }
        ensures bytes { IfOk result (λ r. r.written.wire.bytes.items ≡ []) }
        ensures lines { IfOk result (λ r. r.written.lines.items ≡ []) }
    {
        let seats = open_seats(alloc, &sessions)?;
        Ok(Router {
            sessions,
            seats,
            named: None,
            written: Written::new(alloc)?,
        })
    }

    /// Gives a frame to the session that was named last, or takes the name that it gives. Where neither can be, it answers why, and has
    /// changed nothing.
    ///
    /// # Errors
    /// Want of memory; nothing is to be used again.
    pub(crate) fn route(
        &mut self,
        order: Order,
        message: &[u8],
    ) -> Result<Option<Unrouted>, AllocError>
        requires least { 8 ≤ length message.now }
        requires most { length message.now ≤ 16384 }
        requires open { IsOpen self.old }
        ensures open { OnOk result (IsOpen self.new) }
        ensures routed { IfOk result (λ why. (sessions : List Settings) (frames : List Frame) (wire out : List ℕ)
            → Holds sessions frames wire out self.old → Routes sessions frames wire out (record { order = order; message = message.now }) self.new why) }
    {
        match read_saying(order, message) {
            Saying::Names(id) => Ok(self.name(&id)),
            Saying::Malformed => Ok(Some(Unrouted::BadFrame)),
            Saying::Carries => self.carry(order, message),
        }
    }

    /// The session with this identifier is that of the frames to come.
    fn name(&mut self, id: &[u8; 16]) -> Option<Unrouted>
        requires open { IsOpen self.old }
        ensures open { IsOpen self.new }
        ensures named { (sessions : List Settings) (frames : List Frame) (wire out : List ℕ) (f : Frame) → says f ≡ names id.now
            → Holds sessions frames wire out self.old → Routes sessions frames wire out f self.new result }
    {
        match self.sessions.find(id) {
            Some(place) => {
                self.named = Some(place);
                None
            }
            None => Some(Unrouted::OtherSession),
        }
    }

    /// Gives a frame to the session that was named last.
    fn carry(&mut self, order: Order, message: &[u8]) -> Result<Option<Unrouted>, AllocError>
        requires least { 8 ≤ length message.now }
        requires most { length message.now ≤ 16384 }
        requires open { IsOpen self.old }
        ensures open { OnOk result (IsOpen self.new) }
        ensures carried { IfOk result (λ why. (sessions : List Settings) (frames : List Frame) (wire out : List ℕ) → says (record { order = order; message = message.now }) ≡ carries
            → Holds sessions frames wire out self.old → Routes sessions frames wire out (record { order = order; message = message.now }) self.new why) }
    {
        let Some(place) = self.named else {
            return Ok(Some(Unrouted::NoContext));
        };
        self.seats[place].answer(&mut self.written, place, order, message)?;
        Ok(None)
    }
}

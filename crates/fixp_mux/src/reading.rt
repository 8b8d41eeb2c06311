//! Giving out: each whole frame at the front goes to the session that the last Context named. It relies on the framer and on the sessions.

ghost use Rattle.std.specs.Prelude.{◌≡◌, ◌≤◌, length};
ghost use Rattle.fixp_mux.specs.Stepping.{IsFirstGiven, IsGivenOut, IsPast, IsShorter, during};

use crate::pump::MuxFault;
use crate::routed::Routed;
use crate::router::Router;
use sofh_frame::FirstFrame;

/// Why no further frame was given out.
#[derive(Clone, Copy)]
pub(crate) enum Stop {
    /// No whole frame stands at the front.
    Waits,
    /// The session of the next frame has no room for it.
    Full,
}

/// What giving out came to.
#[derive(Clone, Copy)]
pub(crate) struct Given {
    /// Whether a session was given a frame.
    pub(crate) gave_one: bool,
    pub(crate) stop: Stop,
}

/// What became of the frame at the front.
#[derive(Clone, Copy)]
pub(crate) enum First {
    /// Its session has it.
    Gave,
    /// It was a Context, or its session was released.
    Passed,
    /// It stays.
    Stays(Stop),
}

impl Router {
    /// Lets the frame of this size at the front go.
    fn pass(&mut self, size: usize)
        requires { size ≤ length self.old.framer.held }
        ensures { IsPast size (during self.old) (during self.new) }
    {
        self.framer.drop_front(size);
        self.at = self.at.saturating_add(size as u64);
    }

    /// Gives out the frame at the front.
    fn give_first(&mut self) -> Result<First, MuxFault>
        ensures given { IsFirstGiven (during self.old) result (during self.new) }
        ensures shorter { IsShorter result (length self.old.framer.held) (length self.new.framer.held) }
    {
        let at = self.at;
        let (order, message, size) = match self.framer.peek() {
            FirstFrame::Frame {
                order,
                message,
                size,
            } => (order, message, size),
            FirstFrame::Rest => return Ok(First::Stays(Stop::Waits)),
            FirstFrame::BadLength(_) | FirstFrame::BadEncoding(_) => {
                return Err(MuxFault::BadFrame { at });
            }
        };
        match self.sessions.route(order, message) {
            Routed::Gave => {
                self.pass(size);
                Ok(First::Gave)
            }
            Routed::Passed => {
                self.pass(size);
                Ok(First::Passed)
            }
            Routed::Full => Ok(First::Stays(Stop::Full)),
            Routed::NoContext => Err(MuxFault::NoContext { at }),
            Routed::OtherSession => Err(MuxFault::OtherSession { at }),
            Routed::Malformed => Err(MuxFault::BadFrame { at }),
        }
    }

    /// Gives out whole frames while their sessions have room.
    pub(crate) fn give_out(&mut self) -> Result<Given, MuxFault>
        ensures { IsGivenOut (during self.old) result (during self.new) }
    {
        let mut gave_one = false;
        loop {
            match self.give_first()? {
                First::Gave => gave_one = true,
                First::Passed => {}
                First::Stays(stop) => return Ok(Given { gave_one, stop }),
            }
        }
    }
}

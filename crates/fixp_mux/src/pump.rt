//! One pump of the router: waiting frames are written, whole frames go out to their sessions, and the link gives what it has.
//! It relies on `receiving` and `writing`, each of which keeps the sessions apart.

ghost use Rattle.std.specs.Prelude.{◌≡◌, false};
ghost use Rattle.fixp_mux.specs.Pumping.{DidPump, HasFailed, ends};
ghost use Rattle.fixp_mux.specs.Stepping.{IsChosen, during, state_of};

use crate::mux::Mux;
use crate::reading::Stop;
use crate::receiving::Read;
use crate::router::Router;
use crate::writing::Wrote;
use gw_links::Link;

/// What a pump came to.
#[derive(Clone, Copy, Debug)]
pub enum Pumped {
    /// The link gave or took bytes, or a session was given a frame.
    Went,
    /// Nothing happened: nothing waits, the link takes nothing, or a session has no room for the next frame.
    Quiet,
    /// The link has given its end, and no whole frame is left to give out or to write.
    End,
}

/// Why the transport cannot go on. Places are in bytes from the transport's first.
#[derive(Clone, Copy, Debug)]
pub enum MuxFault {
    /// A frame has no Context before it.
    NoContext {
        /// The frame's place.
        at: u64,
    },
    /// A Context names a session that is none of these.
    OtherSession {
        /// The Context's place.
        at: u64,
    },
    /// The framing refuses the bytes, or a Context is malformed.
    BadFrame {
        /// The frame's place.
        at: u64,
    },
    /// The link failed.
    LinkFault,
}

/// The answer, by what was written and read, and whether the link has given its end.
#[tactic(auto, using(crate::proofs::Answering::goes_sent, crate::proofs::Answering::goes_came, crate::proofs::Answering::goes_gave))]
fn choose(wrote: Wrote, read: Read, is_over: bool) -> Pumped
    ensures { IsChosen wrote read is_over result }
{
    if wrote.sent > 0 || read.came || read.gave_one {
        return Pumped::Went;
    }
    if is_over && wrote.is_all && matches!(read.stop, Stop::Waits) {
        return Pumped::End;
    }
    Pumped::Quiet
}

/// Whether the transport has ended behind this answer.
fn is_last(answer: &Result<Pumped, MuxFault>) -> bool
    ensures { result ≡ ends answer.now }
{
    matches!(answer, Ok(Pumped::End) | Err(_))
}

impl Router {
    /// One pump, but for the mark of the transport's end.
    #[tactic(auto, using(crate::proofs::Answering::did_not_write, crate::proofs::BytesIn::failed_risen, crate::proofs::BytesIn::failed_since))]
    fn run<L: Link>(&mut self, link: &mut L, patience: u64) -> Result<Pumped, MuxFault>
        ensures did { DidPump (L.told link.old) (L.told link.new) (L.carried link.old) (L.carried link.new) (during self.old) (state_of self.new (ends result)) result }
        ensures stays { L.place link.new ≡ L.place link.old }
        ensures cause { HasFailed result (L.faults link.old) (L.faults link.new) }
    {
        let wrote = self.write_out(link)?;
        let wait = if wrote.sent > 0 { 0 } else { patience };
        let read = self.read_in(link, wait)?;
        Ok(choose(wrote, read, self.is_over))
    }
}

impl Mux {
    /// Writes waiting whole frames, each behind a Context exactly where the last Context written does not name its session; gives out whole
    /// frames while their sessions have room; receives once, where there is room; and gives out again. Where nothing happened before, the
    /// receive may wait, for `patience` milliseconds at most. It takes no memory. Behind an end and a fault it is not to be called again.
    ///
    /// # Errors
    /// A frame without a Context, a Context of another session, bytes that are no frame; a failed link.
    pub fn pump<L: Link>(&mut self, link: &mut L, patience: u64) -> Result<Pumped, MuxFault>
        requires { self.old.has_ended ≡ false }
        ensures did { DidPump (L.told link.old) (L.told link.new) (L.carried link.old) (L.carried link.new) self.old self.new result }
        ensures stays { L.place link.new ≡ L.place link.old }
        ensures cause { HasFailed result (L.faults link.old) (L.faults link.new) }
    {
        let answer = self.router.run(link, patience);
        self.has_ended = is_last(&answer);
        answer
    }
}

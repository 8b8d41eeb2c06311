//! Writing: whole frames of the sessions go behind what the link has not taken yet, each behind a Context where the last one written does not
//! name its session.

ghost use Rattle.std.specs.Prelude.{◌≡◌, nat_lt, length};
ghost use Rattle.gw_outside.specs.Faults.{HasCause};
ghost use Rattle.fixp_mux.specs.Stepping.{BegunOn, IsSentOn, IsWrittenOut, during};

use crate::pump::MuxFault;
use crate::router::Router;
use gw_links::{Link, send_front};

/// What writing came to.
#[derive(Clone, Copy)]
pub(crate) struct Wrote {
    /// How many bytes the link took, at most 2^64 - 1.
    pub(crate) sent: u64,
    /// Whether nothing is left to write.
    pub(crate) is_all: bool,
}

impl Router {
    /// Sends what is unsent until the link has taken all of it or takes none, and tells how many bytes it took.
    fn send_on<L: Link>(&mut self, link: &mut L) -> Result<usize, MuxFault>
        ensures sent { IsSentOn (L.told link.old) (L.told link.new) (L.carried link.old) (L.carried link.new) (during self.old) result (during self.new) }
        ensures stays { L.place link.new ≡ L.place link.old }
        ensures cause { HasCause (L.faults link.old) (L.faults link.new) result }
    {
        let Ok(taken) = send_front(link, self.unsent.as_slice()) else {
            return Err(MuxFault::LinkFault);
        };
        self.unsent.drop_front(taken);
        Ok(taken)
    }

    /// Whether there is something that the link has not taken.
    fn has_unsent(&self) -> bool
        ensures { result ≡ nat_lt 0 (length self.now.unsent) }
    {
        self.unsent.len() > 0
    }

    /// Begins waiting frames as long as there is room, and tells whether there was one.
    fn begin_on(&mut self) -> bool
        ensures { BegunOn (during self.old) result (during self.new) }
    {
        self.sessions.begin_frames(&mut self.unsent)
    }

    /// Writes waiting whole frames until none is left or the link takes nothing.
    #[tactic(auto, using(crate::proofs::BytesOut::wrote_none, crate::proofs::BytesOut::write_less, crate::proofs::BytesOut::write_failed))]
    pub(crate) fn write_out<L: Link>(&mut self, link: &mut L) -> Result<Wrote, MuxFault>
        ensures wrote { IsWrittenOut (L.told link.old) (L.told link.new) (L.carried link.old) (L.carried link.new) (during self.old) result (during self.new) }
        ensures stays { L.place link.new ≡ L.place link.old }
        ensures cause { HasCause (L.faults link.old) (L.faults link.new) result }
    {
        let mut sent: u64 = 0;
        loop {
            let taken = self.send_on(link)?;
            sent = sent.saturating_add(taken as u64);
            if self.has_unsent() {
                return Ok(Wrote {
                    sent,
                    is_all: false,
                });
            }
            if !self.begin_on() {
                return Ok(Wrote { sent, is_all: true });
            }
        }
    }
}

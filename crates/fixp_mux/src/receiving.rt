//! Reading in: frames go out to their sessions, the link gives what it has, and frames go out again. It relies on `reading`.

ghost use Rattle.std.specs.Prelude.{◌≡◌};
ghost use Rattle.gw_outside.specs.Faults.{HasCause};
ghost use Rattle.fixp_mux.specs.Stepping.{HasFailedSo, IsRead, IsTakenIn, during};

use crate::pump::MuxFault;
use crate::reading::Stop;
use crate::router::Router;
use gw_links::{Got, Link};

/// What reading in came to.
#[derive(Clone, Copy)]
pub(crate) struct Read {
    /// Whether bytes came.
    pub(crate) came: bool,
    /// Whether a session was given a frame.
    pub(crate) gave_one: bool,
    /// Why no further frame was given out.
    pub(crate) stop: Stop,
}

impl Router {
    /// Receives once, where the link has not given its end and there is room, and tells whether bytes came.
    fn take_in<L: Link>(&mut self, link: &mut L, patience: u64) -> Result<bool, MuxFault>
        ensures took { IsTakenIn (L.told link.old) (L.told link.new) (L.carried link.old) (L.carried link.new) (during self.old) result (during self.new) }
        ensures stays { L.place link.new ≡ L.place link.old }
        ensures cause { HasCause (L.faults link.old) (L.faults link.new) result }
    {
        let room = self.framer.room();
        if self.is_over || room.is_empty() {
            return Ok(false);
        }
        match link.recv(room, patience) {
            Ok(Got::Bytes(count)) => {
                self.framer.filled(count);
                Ok(true)
            }
            Ok(Got::Quiet) => Ok(false),
            Ok(Got::End) => {
                self.is_over = true;
                Ok(false)
            }
            Err(_) => Err(MuxFault::LinkFault),
        }
    }

    /// Gives out whole frames, receives once, and gives out again where bytes came. Where a session was given a frame it does not wait.
    #[tactic(auto, using(crate::proofs::BytesIn::failed_at_once, crate::proofs::BytesIn::failed_receiving, crate::proofs::BytesIn::failed_behind, crate::proofs::BytesIn::trouble_same, crate::proofs::BytesIn::failed_risen))]
    pub(crate) fn read_in<L: Link>(&mut self, link: &mut L, patience: u64) -> Result<Read, MuxFault>
        ensures read { IsRead (L.told link.old) (L.told link.new) (L.carried link.old) (L.carried link.new) (during self.old) result (during self.new) }
        ensures stays { L.place link.new ≡ L.place link.old }
        ensures cause { HasFailedSo result (L.faults link.old) (L.faults link.new) }
    {
        let before = self.give_out()?;
        let wait = if before.gave_one { 0 } else { patience };
        if !self.take_in(link, wait)? {
            return Ok(Read {
                came: false,
                gave_one: before.gave_one,
                stop: before.stop,
            });
        }
        let behind = self.give_out()?;
        Ok(Read {
            came: true,
            gave_one: before.gave_one || behind.gave_one,
            stop: behind.stop,
        })
    }
}

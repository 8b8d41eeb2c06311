//! A link that gives and takes little in a turn.

ghost use Rattle.std.specs.Prelude.{◌<◌, length, None, false};

use gw_link_fakes::MemLink;
use gw_links::{Got, Link};
use gw_outside::Failed;

/// An end of a pipe that gives so many bytes in a piece and takes so many in a turn, at most.
#[derive(Drop)]
pub struct Narrow<'a> {
    link: MemLink<'a>,
    gives: usize,
    takes: usize,
}

impl<'a> Narrow<'a> {
    /// The end of a pipe for a turn.
    pub fn new(link: MemLink<'a>, gives: usize, takes: usize) -> Narrow<'a> {
        Narrow { link, gives, takes }
    }
}

impl Link for Narrow<'_> {
    ghost told = { λ l. None };

    ghost carried = { λ l. None };

    ghost eager = { false };

    ghost Place = { Unit {0} };

    ghost place = { λ l. tt };

    ghost faults = { λ l. 0 };

    fn recv(&mut self, into: &mut [u8], patience: u64) -> Result<Got, Failed> {
        let count = into.len().min(self.gives);
        if count == 0 {
            return Ok(Got::Quiet);
        }
        match self.link.recv(&mut into[..count], patience) {
            Ok(got) => Ok(got),
            // The end of a pipe does not fail.
            Err(_) => Ok(Got::Quiet),
        }
    }

    fn send(&mut self, bytes: &[u8]) -> Result<usize, Failed> {
        let count = bytes.len().min(self.takes);
        let (front, _) = bytes.split_at(count);
        match self.link.send(front) {
            Ok(taken) => {
                self.takes -= taken;
                Ok(taken)
            }
            // Nor does it here.
            Err(_) => Ok(0),
        }
    }
}

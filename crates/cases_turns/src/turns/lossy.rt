//! A link that loses every tenth message once: the peer is told the number behind it, as it would be by a link whose frames carry
//! numbers. It counts what goes over it.

ghost use Rattle.std.specs.Prelude.{◌<◌, length, None, false};

use cases_made::{is_application, session_in};
use fixp_msgs::SessionMsg;
use gw_link_fakes::MemLink;
use gw_links::{Got, Link};
use gw_outside::Failed;
use sbe_prim::Order;
use sofh_frame::{FirstFrame, next};

/// More frames than a turn writes.
const FRAMES: u64 = 64;

/// What went over a link from one end to the other, and what of it was lost.
#[derive(Clone, Copy)]
pub struct Passed {
    /// Whether messages are lost.
    loses: bool,
    /// How many messages came for the first time.
    pub live: u64,
    /// How many of them were lost.
    pub lost: u64,
    /// How many messages came again.
    pub again: u64,
    /// How many of the range that is sent again are still to come.
    left: u64,
    /// The last number that was to come again.
    last_again: u64,
    /// How many requests for a retransmission came.
    pub requests: u64,
    /// Whether some message came again that had not come before, or came a third time.
    pub is_wrong: bool,
}

impl Passed {
    /// Nothing yet.
    pub fn nothing(loses: bool) -> Passed {
        Passed {
            loses,
            live: 0,
            lost: 0,
            again: 0,
            left: 0,
            last_again: 0,
            requests: 0,
            is_wrong: false,
        }
    }

    /// A message comes; is it lost?
    fn is_lost(&mut self) -> bool {
        if self.left > 0 {
            self.left -= 1;
            self.again = self.again.saturating_add(1);
            return false;
        }
        self.live = self.live.saturating_add(1);
        let is_lost = self.loses && self.live % 10 == 0;
        self.lost = self.lost.saturating_add(u64::from(is_lost));
        is_lost
    }

    /// So many messages come again, from a number on.
    fn begin_again(&mut self, from: u64, count: u32) {
        let last = from.saturating_add(u64::from(count)).saturating_sub(1);
        self.is_wrong = self.is_wrong || from <= self.last_again || last > self.live;
        self.last_again = last;
        self.left = u64::from(count);
    }

    /// A session message comes.
    fn hear(&mut self, said: &SessionMsg<'_>) {
        match said {
            SessionMsg::Retransmission(m) => self.begin_again(m.next_seq, m.count),
            SessionMsg::RetransmitRequest(_) => self.requests = self.requests.saturating_add(1),
            _ => {}
        }
    }

    /// Counts a frame; is it lost?
    fn count(&mut self, order: Order, message: &[u8]) -> bool {
        if let Some(said) = session_in(order, message) {
            self.hear(&said);
        }
        is_application(order, message) && self.is_lost()
    }
}

/// The frame that tells the number of the next message.
fn sequence(next: u64) -> [u8; 22] {
    let mut frame = [
        0, 0, 0, 22, 0xEB, 0x50, 8, 0, 7, 0, 0x11, 0xF0, 0, 0, 0, 0, 0, 0, 0, 0, 0, 0,
    ];
    frame[14..].copy_from_slice(&next.to_le_bytes());
    frame
}

/// An end of a pipe for a turn, which has room for all that is sent.
#[derive(Drop)]
pub struct Lossy<'a> {
    link: MemLink<'a>,
    passed: &'a mut Passed,
}

impl<'a> Lossy<'a> {
    /// The end of a pipe for a turn.
    pub fn new(link: MemLink<'a>, passed: &'a mut Passed) -> Lossy<'a> {
        Lossy { link, passed }
    }

    /// Sends a frame, or in its place the number behind it.
    fn pass(&mut self, order: Order, message: &[u8], frame: &[u8]) {
        if self.passed.count(order, message) {
            let behind = sequence(self.passed.live.saturating_add(1));
            let _ = self.link.send(&behind);
        } else {
            let _ = self.link.send(frame);
        }
    }

    /// Sends the first of some frames, and answers the others.
    fn pass_first<'b>(&mut self, bytes: &'b [u8]) -> &'b [u8] {
        let FirstFrame::Frame {
            order,
            message,
            size,
        } = next(bytes)
        else {
            return &[];
        };
        match bytes.split_at_checked(size) {
            Some((frame, behind)) => {
                self.pass(order, message, frame);
                behind
            }
            None => &[],
        }
    }
}

impl Link for Lossy<'_> {
    ghost told = { λ l. None };

    ghost carried = { λ l. None };

    ghost eager = { false };

    ghost Place = { Unit {0} };

    ghost place = { λ l. tt };

    ghost faults = { λ l. 0 };

    fn recv(&mut self, into: &mut [u8], patience: u64) -> Result<Got, Failed> {
        match self.link.recv(into, patience) {
            Ok(got) => Ok(got),
            // The end of a pipe does not fail.
            Err(_) => Ok(Got::Quiet),
        }
    }

    fn send(&mut self, bytes: &[u8]) -> Result<usize, Failed> {
        let mut rest = bytes;
        for _ in 0..FRAMES {
            rest = self.pass_first(rest);
        }
        Ok(bytes.len())
    }
}

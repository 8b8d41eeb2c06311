//! The receiver's side: one request at a time, and the retransmission that answers it.

ghost use Rattle.std.specs.Prelude.{◌≡◌, ◌+◌, ◌<◌, ◌≤◌, ◌^◌, ◌↔◌, Some, None, IsNone, IsSome, IfErr, OnOk, OnErr};
ghost use Rattle.flow_retrans.specs.declared.request.Request.TheVariants.{Nothing, Asked};
ghost use Rattle.flow_retrans.specs.Requests.{outstanding, is_coming, first_of_gap, start_fault, started, message_fault, sequence_fault, after_message, after_sequence};

use crate::judging::REQUEST_LIMIT;
use crate::request::Request;
use fixp_msgs::Range;
use std::marker::Model;

/// A message does not fit the retransmission: a number or a count stands where another was expected. 0 stands for none.
#[derive(Clone, Copy)]
pub struct BadStart {
    pub expected: u64,
    pub found: u64,
}

/// What a receiver has asked for (FIXP 1.1, RetransmitRequest). Contracts see it as its request.
#[derive(Clone, Copy)]
pub struct Requester {
    request: Request,
}

impl Model for Requester {
    ghost use Rattle.flow_retrans.specs.declared.request.Request.{Request};
    ghost use Rattle.flow_retrans.specs.Requests.{EndsInWord};

    ghost Value = { Request };

    ghost view = { λ r. r.request };

    ghost inverse = { λ v. record { request = v } };

    ghost invariant = { λ r. EndsInWord r.request };
}

impl Requester {
    /// No request is outstanding.
    pub fn new() -> Requester
        ensures { result ≡ Nothing }
    {
        Requester {
            request: Request::Nothing,
        }
    }

    /// The range that was asked for and is not done.
    pub fn outstanding(&self) -> Option<Range>
        ensures { result ≡ outstanding self.now }
    {
        match self.request {
            Request::Nothing => None,
            Request::Asked(range) => Some(range),
            Request::Coming { range, .. } => Some(range),
        }
    }

    /// Whether a Retransmission answers the request: the messages that come now are its.
    pub fn is_coming(&self) -> bool
        ensures { result ≡ is_coming self.now }
    {
        matches!(self.request, Request::Coming { .. })
    }

    /// Asks for the first numbers of a gap, 256 at most, and gives what is asked for. While a request is outstanding it
    /// gives none, and nothing changes.
    pub fn want(&mut self, gap: Range) -> Option<Range>
        requires some { 1 ≤ gap.count }
        requires within { gap.from + gap.count < 2 ^ 64 }
        ensures one { IsNone (outstanding self.old) → (result ≡ Some (first_of_gap gap)) × (self.new ≡ Asked (first_of_gap gap)) }
        ensures none { IsSome (outstanding self.old) → (result ≡ None) × (self.new ≡ self.old) }
    {
        match self.request {
            Request::Nothing => {
                let range = Range {
                    from: gap.from,
                    count: gap.count.min(u64::from(REQUEST_LIMIT)),
                };
                self.request = Request::Asked(range);
                Some(range)
            }
            Request::Asked(_) | Request::Coming { .. } => None,
        }
    }

    /// A Retransmission came: `count` messages from the number `next` on.
    ///
    /// # Errors
    /// Without an outstanding request, 0 was expected and `next` is found; where `next` is not the first number asked for,
    /// that one was expected; where `count` is 0 or above the count asked for, that count was expected. Nothing has changed.
    pub fn on_start(&mut self, next: u64, count: u32) -> Result<(), BadStart>
        ensures bad { IfErr result (λ bad. start_fault (outstanding self.old) next count ≡ Some bad) }
        ensures fits { OnOk result (start_fault (outstanding self.old) next count ≡ None) }
        ensures started { OnOk result (self.new ≡ started self.old next count) }
        ensures same { OnErr result (self.new ≡ self.old) }
    {
        let Some(range) = self.outstanding() else {
            return Err(BadStart {
                expected: 0,
                found: next,
            });
        };
        let left = u64::from(count);
        if next != range.from {
            return Err(BadStart {
                expected: range.from,
                found: next,
            });
        }
        if left == 0 || left > range.count {
            return Err(BadStart {
                expected: range.count,
                found: left,
            });
        }
        self.request = Request::Coming { range, next, left };
        Ok(())
    }

    /// An application message came. Inside a retransmission it is one of its messages.
    ///
    /// # Errors
    /// All messages of the retransmission came: 0 was expected, and the message's number is found. Nothing has changed.
    pub fn on_app(&mut self) -> Result<(), BadStart>
        ensures bad { IfErr result (λ bad. message_fault self.old ≡ Some bad) }
        ensures fits { OnOk result (message_fault self.old ≡ None) }
        ensures counted { OnOk result (self.new ≡ after_message self.old) }
        ensures same { OnErr result (self.new ≡ self.old) }
    {
        let Request::Coming { range, next, left } = self.request else {
            return Ok(());
        };
        if left == 0 {
            return Err(BadStart {
                expected: 0,
                found: next,
            });
        }
        self.request = Request::Coming {
            range,
            next: next + 1,
            left: left - 1,
        };
        Ok(())
    }

    /// A Sequence came. It ends the retransmission that came, and with it the request.
    ///
    /// # Errors
    /// Some messages of the retransmission did not come: the next of them was expected, and 0 is found. Nothing has changed.
    pub fn on_sequence(&mut self) -> Result<(), BadStart>
        ensures bad { IfErr result (λ bad. sequence_fault self.old ≡ Some bad) }
        ensures fits { OnOk result (sequence_fault self.old ≡ None) }
        ensures done { OnOk result (self.new ≡ after_sequence self.old) }
        ensures same { OnErr result (self.new ≡ self.old) }
    {
        let Request::Coming { next, left, .. } = self.request else {
            return Ok(());
        };
        if left > 0 {
            return Err(BadStart {
                expected: next,
                found: 0,
            });
        }
        self.request = Request::Nothing;
        Ok(())
    }
}

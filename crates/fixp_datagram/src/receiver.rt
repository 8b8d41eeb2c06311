//! The receiver of a recoverable or idempotent flow in datagrams: what each datagram's start and each message comes to, and
//! which numbers are to be asked for. It keeps numbers alone, and takes no memory.

ghost use Rattle.std.specs.Prelude.{◌≡◌, ◌≢◌, ◌-◌, ◌<◌, ◌^◌, IsSome};
ghost use Rattle.fixp_datagram.specs.Receiving.{IsCarried, fresh, missed, start_of, started, seen, counted, asked, ask};

use fixp_msgs::{Flow, Range};
use flow_idem::jump_of;
use std::marker::Model;

/// How many numbers are asked for at once, at most.
pub const MOST_ASKED: u64 = 256;

/// What a datagram's first number comes to.
#[derive(Clone, Copy, Debug)]
pub enum Start {
    /// Its messages are taken.
    Plain,
    /// Its messages are taken, and these numbers, which it jumps over, are missing on an idempotent flow from now on.
    Missing(Range),
    /// The number is 0, or past the one behind the greatest that a message may have. The datagram is dropped.
    TooLarge,
}

/// What becomes of a message, with its number.
#[derive(Clone, Copy, Debug)]
pub enum DgSeen {
    /// It is the one that the inbox waits for, and is delivered.
    Deliver(u64),
    /// It was delivered before, or its number was given up.
    Late(u64),
    /// It is past the one that the inbox waits for, and is dropped.
    Gap(u64),
    /// Its number is above the greatest that a message may have.
    TooLarge(u64),
}

/// The receiving end of a recoverable or idempotent flow in datagrams (FIXP 1.1, recoverable and idempotent flow types).
#[derive(Debug, Drop)]
pub struct DgReceiver {
    flow: Flow,
    next: u64,
    most: u64,
    known: u64,
    counting: Option<u64>,
}

impl Model for DgReceiver {
    ghost use Rattle.std.specs.Prelude.{◌+◌, ◌-◌, ◌<◌, ◌≤◌, ◌^◌, IfSome};
    ghost use Rattle.fixp_datagram.specs.Receiving.{Receiver};

    ghost Value = { Receiver };

    ghost view = { λ r. record { flow = r.flow; next = r.next; most = r.most; known = r.known; counting = r.counting } };

    ghost invariant = { λ r. (r.most < 2 ^ 64 - 1) × IfSome r.counting (λ n. n ≤ r.most + 1) };
}

impl DgReceiver {
    /// A receiver to which nothing came yet: of a recoverable or an idempotent flow, where the inbox waits for the number `next`
    /// and no message has a number above `most`, which is below 2^64 - 1.
    pub fn new(flow: Flow, next: u64, most: u64) -> DgReceiver
        requires flow { IsCarried flow }
        requires most { most < 2 ^ 64 - 1 }
        ensures { result ≡ fresh flow next most }
    {
        DgReceiver {
            flow,
            next,
            most,
            known: 0,
            counting: None,
        }
    }

    /// A datagram begins, whose first number is `n`.
    pub fn on_start(&mut self, n: u64) -> Start
        ensures answer { result ≡ start_of self.old n }
        ensures after { self.new ≡ started self.old n }
        ensures begun { result ≢ Start.TooLarge → IsSome self.new.counting }
        ensures dropped { result ≡ Start.TooLarge → self.new.counting ≡ None }
    {
        if n == 0 || n > self.most + 1 {
            self.counting = None;
            return Start::TooLarge;
        }
        self.known = self.known.max(n);
        self.counting = Some(n);
        match missed(self.flow, self.next, n) {
            Some(range) => {
                self.next = n;
                Start::Missing(range)
            }
            None => Start::Plain,
        }
    }

    /// The next message of the datagram, whose start was taken.
    pub fn on_app(&mut self) -> DgSeen
        requires begun { IsSome self.old.counting }
        ensures seen { result ≡ seen self.old }
        ensures after { self.new ≡ counted self.old }
        ensures goes_on { IsSome self.new.counting }
    {
        let number = self.counting.unwrap_or(0);
        if number > self.most {
            return DgSeen::TooLarge(number);
        }
        self.known = self.known.max(number + 1);
        self.counting = Some(number + 1);
        if number == self.next {
            self.next = number + 1;
            DgSeen::Deliver(number)
        } else if number < self.next {
            DgSeen::Late(number)
        } else {
            DgSeen::Gap(number)
        }
    }

    /// The numbers to be asked for, if there are any: on a recoverable flow those from the next one on that are known to have
    /// been sent, at most the first 256.
    pub fn ask(&self) -> Option<Range>
        ensures exact { result ≡ ask self.now }
    {
        match self.flow {
            Flow::Recoverable => asked(self.next, self.known),
            Flow::Idempotent | Flow::Unsequenced | Flow::None => None,
        }
    }

    /// The number that the inbox waits for.
    pub fn next(&self) -> u64
        ensures { result ≡ self.now.next }
    {
        self.next
    }
}

/// The numbers that a datagram beginning with `n` jumps over, which an idempotent flow does not wait for.
fn missed(flow: Flow, next: u64, n: u64) -> Option<Range>
    ensures { result ≡ missed flow next n }
{
    match flow {
        Flow::Idempotent => jump_of(next, n),
        Flow::Recoverable | Flow::Unsequenced | Flow::None => None,
    }
}

/// The numbers from `next` on that are below `known`, at most the first 256.
fn asked(next: u64, known: u64) -> Option<Range>
    ensures { result ≡ asked next known }
{
    if next < known {
        Some(Range {
            from: next,
            count: MOST_ASKED.min(known - next),
        })
    } else {
        None
    }
}

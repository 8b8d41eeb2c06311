//! The numbers of a receiver of a recoverable flow on one connection: the one that the inbox waits for, the live number, and
//! the one inside a retransmission. They hold no message, and are copied freely.

ghost use Rattle.std.specs.Prelude.{◌≡◌, ◌+◌, ◌^◌, ◌<◌, ◌≤◌, ◌↔◌, IsOk, IfErr, IfSome, OnOk, OnErr};
ghost use Rattle.flow_recover.specs.Receiving.{fresh, expected, announced, retransmitted, number, seen, after_message, past, gap, counted};

use fixp_msgs::Range;
use std::marker::Model;

/// How far past the number that the inbox waits for a message may lie, to be held.
pub const REACH: u64 = 256;

/// An announcement goes back: its number is below the one expected.
#[derive(Clone, Copy, PartialEq, Eq)]
pub struct Back {
    /// The number announced.
    pub announced: u64,
    /// The least number that may be announced.
    pub expected: u64,
}

/// What becomes of an application message, with its number.
#[derive(Clone, Copy)]
pub enum Seen {
    /// It is the one that the inbox waits for, and is delivered.
    Deliver(u64),
    /// It is past the one that the inbox waits for, by at most 256, and is held.
    Hold(u64),
    /// It is past the one that the inbox waits for, by more than 256.
    Gap(u64),
    /// It is there already.
    Repeat(u64),
}

/// The numbers of the receiving end of a recoverable flow on one connection (FIXP 1.1, recoverable flow type).
#[derive(Clone, Copy)]
pub struct Numbers {
    next: u64,
    live: u64,
    again: Option<u64>,
}

impl Model for Numbers {
    ghost use Rattle.flow_recover.specs.Receiving.{Receiving};

    ghost Value = { Receiving };

    ghost view = { λ n. record { next = n.next; live = n.live; again = n.again } };

    ghost inverse = { λ v. record { next = v.next; live = v.live; again = v.again } };
}

impl Numbers {
    /// The numbers at the beginning of a connection, where the inbox waits for `next`.
    pub fn new(next: u64) -> Numbers
        ensures { result ≡ fresh next }
    {
        Numbers {
            next,
            live: next,
            again: None,
        }
    }

    /// The next number `next_seq` is announced by an Establish, an EstablishmentAck or a Sequence. It ends a retransmission.
    ///
    /// # Errors
    /// The number is below the one expected, the greater of the number that the inbox waits for and the live number.
    /// Nothing has changed then.
    pub fn announce(&mut self, next_seq: u64) -> Result<(), Back>
        ensures taken { IsOk result ↔ (expected self.old ≤ next_seq) }
        ensures live { OnOk result (self.new ≡ announced self.old next_seq) }
        ensures back { IfErr result (λ back. back ≡ record { announced = next_seq; expected = expected self.old }) }
        ensures same { OnErr result (self.new ≡ self.old) }
    {
        self.announce_from(self.expected(), next_seq)
    }

    /// The same where the peer may go back behind the live number: it was told which number the inbox waits for, and starts
    /// there.
    ///
    /// # Errors
    /// The number is below the one that the inbox waits for. Nothing has changed then.
    pub fn announce_soft(&mut self, next_seq: u64) -> Result<(), Back>
        ensures taken { IsOk result ↔ (self.old.next ≤ next_seq) }
        ensures live { OnOk result (self.new ≡ announced self.old next_seq) }
        ensures back { IfErr result (λ back. back ≡ record { announced = next_seq; expected = self.old.next }) }
        ensures same { OnErr result (self.new ≡ self.old) }
    {
        self.announce_from(self.next, next_seq)
    }

    /// A retransmission begins with the number `first`. The messages up to the next announcement are numbered from there.
    pub fn on_retransmission(&mut self, first: u64)
        ensures { self.new ≡ retransmitted self.old first }
    {
        self.again = Some(first);
    }

    /// The number that the inbox waits for.
    pub fn next(&self) -> u64
        ensures { result ≡ self.now.next }
    {
        self.next
    }

    /// The least number that may be announced: the greater of the number that the inbox waits for and the live number.
    pub fn expected(&self) -> u64
        ensures { result ≡ expected self.now }
    {
        self.next.max(self.live)
    }

    /// The live number, which the next message outside a retransmission has.
    pub fn live(&self) -> u64
        ensures { result ≡ self.now.live }
    {
        self.live
    }

    /// The number of the next application message: the retransmission's inside one, else the live number.
    pub fn number(&self) -> u64
        ensures { result ≡ number self.now }
    {
        self.again.unwrap_or(self.live)
    }

    /// Takes an application message, and tells what becomes of it.
    pub fn on_app(&mut self) -> Seen
        requires { number self.old + 1 < 2 ^ 64 }
        ensures seen { result ≡ seen self.old }
        ensures after { self.new ≡ after_message self.old }
    {
        let number = self.number();
        self.count();
        if number == self.next {
            self.next = number + 1;
            Seen::Deliver(number)
        } else if number < self.next {
            Seen::Repeat(number)
        } else if number - self.next <= REACH {
            Seen::Hold(number)
        } else {
            Seen::Gap(number)
        }
    }

    /// The message that the inbox waited for was applied from the window.
    pub fn pass(&mut self)
        requires { self.old.next + 1 < 2 ^ 64 }
        ensures { self.new ≡ past self.old }
    {
        self.next += 1;
    }

    /// The numbers that are missing, if there are any, where `least` is the least number held: from the one that the inbox
    /// waits for up to that one, or up to the live number where none is held.
    pub fn gap(&self, least: Option<u64>) -> Option<Range>
        ensures exact { result ≡ gap least self.now }
        ensures within { IfSome result (λ g. (1 ≤ g.count) × (g.from + g.count < 2 ^ 64)) }
    {
        let end = least.unwrap_or(self.live);
        if self.next < end {
            Some(Range {
                from: self.next,
                count: end - self.next,
            })
        } else {
            None
        }
    }

    /// The next number is announced, and `lowest` is the least that may be.
    fn announce_from(&mut self, lowest: u64, next_seq: u64) -> Result<(), Back>
        ensures taken { IsOk result ↔ (lowest ≤ next_seq) }
        ensures live { OnOk result (self.new ≡ announced self.old next_seq) }
        ensures back { IfErr result (λ back. back ≡ record { announced = next_seq; expected = lowest }) }
        ensures same { OnErr result (self.new ≡ self.old) }
    {
        if next_seq < lowest {
            return Err(Back {
                announced: next_seq,
                expected: lowest,
            });
        }
        self.live = next_seq;
        self.again = None;
        Ok(())
    }

    /// Counts the next message, under the retransmission's number inside one and else under the live one.
    fn count(&mut self)
        requires { number self.old + 1 < 2 ^ 64 }
        ensures { self.new ≡ counted self.old self.old.again }
    {
        match self.again {
            Some(number) => self.again = Some(number + 1),
            None => self.live += 1,
        }
    }
}

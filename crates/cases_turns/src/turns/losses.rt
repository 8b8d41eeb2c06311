//! A long session over a link that loses every tenth message of one end once.
//!
//! So a tenth of the messages is lost. Behind each that is, the receiver is told the next number and misses that one message: it asks for
//! it at once, or, where a request is open, once that is answered, and not for more, since what stands behind a lost message is held. So
//! there are as many requests as losses, and as many messages are sent again; each message is delivered once, in order.

use crate::turns::lossy::{Lossy, Passed};
use cases_made::{DrivenEnd, Setup, Standing, fresh_disks};
use conn_turns::NewsItem;
use fixp_end::{Flow, Role};
use gw_link_fakes::Pipe;
use std::alloc::{AllocError, Global};
use std::sync::Wait;

/// How many messages are sent.
const COUNT: u64 = 100_000;

/// The most rounds of the connection.
const ROUNDS: u64 = 200_000;

/// The room of a disk, in bytes: a record takes 34 at most.
const DISK: usize = 1 << 22;

/// The room of the pipe each way, in bytes: more than a turn writes.
const ROOM: usize = 1 << 12;

/// The two ends of a session, of which the first sends a recoverable flow and the other none.
struct Ends {
    sender: DrivenEnd,
    receiver: DrivenEnd,
    /// What went from the first to the other.
    sent: Passed,
    /// What went back.
    answered: Passed,
    /// How many messages were delivered, each behind the one before.
    delivered: u64,
    /// Whether another one was.
    is_wrong: bool,
}

/// The message of a number.
fn message(number: u64) -> [u8; 10] {
    let [a, b, c, d, ..] = number.to_le_bytes();
    [0xEB, 0x50, 0, 0, a, b, 0x64, 0, c, d]
}

/// An end with this role that sends one flow and receives the other; none where memory runs out.
fn end(alloc: Global, role: Role, own_flow: Flow, peer_flow: Flow) -> Option<DrivenEnd> {
    let setup = Setup {
        role,
        session: [0x5A; 16],
        own_flow,
        peer_flow,
        senders: 1,
    };
    DrivenEnd::open(alloc, setup, fresh_disks(alloc, DISK)?)
}

/// The role of the other end.
fn other(role: Role) -> Role {
    match role {
        Role::Initiator => Role::Acceptor,
        Role::Acceptor => Role::Initiator,
    }
}

/// Two ends of which the sender has this role; none where memory runs out.
fn opened(alloc: Global, role: Role) -> Option<Ends> {
    let sender = end(alloc, role, Flow::Recoverable, Flow::None)?;
    match end(alloc, other(role), Flow::None, Flow::Recoverable) {
        Some(receiver) => Some(Ends {
            sender,
            receiver,
            sent: Passed::nothing(true),
            answered: Passed::nothing(false),
            delivered: 0,
            is_wrong: false,
        }),
        None => {
            let _ = sender.close();
            None
        }
    }
}

impl Ends {
    /// The sender submits all messages, and the mark behind them.
    fn submit<R: Wait>(&mut self, rt: &R) {
        for number in 1..=COUNT {
            let _ = self.sender.submit(1, &message(number), rt);
        }
        let _ = self.sender.finish(rt);
    }

    /// Takes what the receiver's last turn delivered.
    fn take_news(&mut self) {
        for item in self.receiver.news() {
            if let NewsItem::Delivered { number, payload } = item {
                let next = self.delivered.saturating_add(1);
                let is_next = *number == next && payload.as_slice() == &message(next)[..];
                self.is_wrong = self.is_wrong || !is_next;
                self.delivered = next;
            }
        }
    }

    /// A turn of each end.
    fn round<R: Wait>(&mut self, pipe: &mut Pipe, rt: &R) {
        self.sender
            .turn(&mut Lossy::new(pipe.left(), &mut self.sent), 1, rt);
        self.receiver
            .turn(&mut Lossy::new(pipe.right(), &mut self.answered), 1, rt);
        self.take_news();
    }

    /// Whether the connection has ended at both.
    fn are_over(&self) -> bool {
        self.sender.standing() != Standing::Open && self.receiver.standing() != Standing::Open
    }

    /// The connection, from its beginning to its end.
    fn connect<R: Wait>(&mut self, alloc: Global, rt: &R) -> Result<(), AllocError> {
        let mut pipe = Pipe::new(alloc, ROOM)?;
        self.sender.begin();
        self.receiver.begin();
        for _ in 0..ROUNDS {
            self.round(&mut pipe, rt);
            if self.are_over() {
                break;
            }
        }
        Ok(())
    }

    /// Adds what came of it.
    fn push(&self, line: &mut String) -> Result<(), AllocError> {
        let (sent, delivered) = (self.sent, self.delivered);
        let (live, lost, again) = (sent.live, sent.lost, sent.again);
        let requests = self.answered.requests;
        write!(
            line,
            "{live} sent, {lost} lost, {requests} requests, {again} sent again, {delivered} delivered"
        )?;
        if sent.is_wrong {
            line.push_str(", one of them sent more than twice")?;
        }
        if self.is_wrong {
            line.push_str(", one of them out of order")?;
        }
        let (first, second) = (self.sender.ending(), self.receiver.ending());
        write!(line, ", {first:?} and {second:?}")
    }

    /// The ends are given up.
    fn close(self) {
        let Ends {
            sender,
            receiver,
            sent: _,
            answered: _,
            delivered: _,
            is_wrong: _,
        } = self;
        let _ = sender.close();
        let _ = receiver.close();
    }
}

/// Adds how the session goes in which the end of this role sends.
///
/// # Errors
/// Want of memory for the words or the pipe.
pub fn push_losses<R: Wait>(
    alloc: Global,
    line: &mut String,
    role: Role,
    rt: &R,
) -> Result<(), AllocError> {
    write!(line, "{role:?} over a link with losses: ")?;
    let Some(mut ends) = opened(alloc, role) else {
        return line.push_str("want of memory");
    };
    ends.submit(rt);
    let said = match ends.connect(alloc, rt) {
        Ok(()) => ends.push(line),
        Err(fault) => Err(fault),
    };
    ends.close();
    said
}

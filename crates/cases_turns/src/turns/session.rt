//! Two ends of a session, and the pipe between them.

use crate::turns::narrow::Narrow;
use cases_made::{Disks, DrivenEnd, Setup, Standing, fresh_disks};
use cases_words::Chance;
use fixp_end::{Ending, Flow, Role};
use gw_link_fakes::{MemLink, Pipe};
use std::alloc::{AllocError, Global};
use std::sync::Wait;

/// The room of a disk, in bytes.
const DISK: usize = 1 << 14;

/// The room of the pipe each way, in bytes.
const ROOM: usize = 512;

/// The most rounds of a connection.
const ROUNDS: u64 = 20_000;

/// How many messages each sender submits.
pub const EACH: u8 = 5;

/// What a session is of.
#[derive(Clone, Copy)]
pub struct Plan {
    /// The flows of the initiator's messages and of the acceptor's.
    pub flows: [Flow; 2],
    /// How many senders the initiator and the acceptor have, 1 to 4.
    pub senders: [u8; 2],
    /// How many connections are cut before the last one, which is not.
    pub cuts: u64,
    /// Below how many rounds one is cut.
    pub rounds: u64,
    /// How many bytes the link gives and takes in a turn, at most; 0 where it is drawn for each turn.
    pub width: usize,
}

/// An end, and what its senders have submitted.
pub struct Side {
    end: DrivenEnd,
    senders: u8,
    /// How many messages each sender has submitted, sender 1 first.
    submitted: [u8; 4],
    /// How many messages are not submitted yet.
    left: u64,
    finished: bool,
}

/// A message of 8 bytes behind its encoding type: its template is the sender, its version its place in the sender's list.
pub const fn message(sender: u8, place: u8) -> [u8; 10] {
    [0xEB, 0x50, 0, 0, sender, 0, 0x64, 0, place, 0]
}

impl Side {
    /// A new end; none where memory runs out.
    fn open(alloc: Global, role: Role, flows: [Flow; 2], senders: u8) -> Option<Side> {
        let [own_flow, peer_flow] = flows;
        let senders = senders.clamp(1, 4);
        let setup = Setup {
            role,
            session: [0x5A; 16],
            own_flow,
            peer_flow,
            senders: u16::from(senders),
        };
        let end = DrivenEnd::open(alloc, setup, fresh_disks(alloc, DISK)?)?;
        Some(Side {
            end,
            senders,
            submitted: [0; 4],
            left: u64::from(senders) * u64::from(EACH),
            finished: false,
        })
    }

    /// The sender of a place, from 0 on, submits its next message, if it has one left.
    fn submit<R: Wait>(&mut self, place: usize, rt: &R) {
        let place = place.min(3);
        let done = self.submitted[place];
        let sender = place as u8 + 1;
        if done < EACH
            && self
                .end
                .submit(u16::from(sender), &message(sender, done), rt)
        {
            self.submitted[place] = done + 1;
            self.left = self.left.saturating_sub(1);
        }
    }

    /// What is done between two turns: now and then a sender submits that is drawn, and the mark is added once all have.
    fn between<R: Wait>(&mut self, chance: &mut Chance, rt: &R) {
        if chance.once_in(3) {
            self.submit(chance.below(u64::from(self.senders)) as usize, rt);
        }
        if self.left == 0 && !self.finished {
            self.finished = self.end.finish(rt);
        }
    }

    /// Each sender submits what it has left, and the mark is added: a connection of an absent flow does not wait for that.
    fn finish<R: Wait>(&mut self, rt: &R) {
        for place in 0..usize::from(self.senders) {
            for _ in 0..EACH {
                self.submit(place, rt);
            }
        }
        if !self.finished {
            self.finished = self.end.finish(rt);
        }
    }

    /// A turn over a link.
    fn turn<R: Wait>(&mut self, link: MemLink<'_>, width: usize, rt: &R) {
        self.end.turn(&mut Narrow::new(link, width, width), 1, rt);
    }

    /// Its journals.
    fn close(self) -> Disks {
        let Side {
            end,
            senders: _,
            submitted: _,
            left: _,
            finished: _,
        } = self;
        end.close()
    }

    /// Whether its connection has ended.
    fn is_over(&self) -> bool {
        self.end.standing() == Standing::Over
    }

    /// What is wrong with how its connection ended, if anything is: only a cut ends one before both finishes are exchanged.
    fn fault(&self, is_cut: bool) -> Option<&'static str> {
        match self.end.ending() {
            Some(Ending::Finished) => None,
            Some(Ending::LinkEnded) if is_cut => None,
            Some(Ending::Violation(_)) => Some("a violation"),
            Some(_) => Some("another ending"),
            None => Some("no ending"),
        }
    }
}

/// A session of two ends.
pub struct Session {
    plan: Plan,
    chance: Chance,
    initiator: Side,
    acceptor: Side,
}

impl Session {
    /// A new session; none where memory runs out.
    pub fn open(alloc: Global, plan: Plan, chance: Chance) -> Option<Session> {
        let [client, server] = plan.flows;
        let [clients, servers] = plan.senders;
        let initiator = Side::open(alloc, Role::Initiator, [client, server], clients)?;
        match Side::open(alloc, Role::Acceptor, [server, client], servers) {
            Some(acceptor) => Some(Session {
                plan,
                chance,
                initiator,
                acceptor,
            }),
            None => {
                let _ = initiator.close();
                None
            }
        }
    }

    /// How many bytes a link gives and takes in the next turn.
    fn width(&mut self) -> usize {
        if self.plan.width > 0 {
            return self.plan.width;
        }
        match self.chance.below(3) {
            0 => 1 << 15,
            _ => self.chance.below(100) as usize,
        }
    }

    /// The initiator's senders go on, and it makes a turn.
    fn turn_initiator<R: Wait>(&mut self, pipe: &mut Pipe, rt: &R) {
        let width = self.width();
        self.initiator.between(&mut self.chance, rt);
        self.initiator.turn(pipe.left(), width, rt);
    }

    /// The acceptor's senders go on, and it makes a turn.
    fn turn_acceptor<R: Wait>(&mut self, pipe: &mut Pipe, rt: &R) {
        let width = self.width();
        self.acceptor.between(&mut self.chance, rt);
        self.acceptor.turn(pipe.right(), width, rt);
    }

    /// Rounds of a turn of each end, at most so many, until the connection has ended at both.
    fn rounds<R: Wait>(&mut self, pipe: &mut Pipe, most: u64, rt: &R) {
        for _ in 0..most {
            self.turn_initiator(pipe, rt);
            self.turn_acceptor(pipe, rt);
            if self.initiator.is_over() && self.acceptor.is_over() {
                break;
            }
        }
    }

    /// The pipe is cut with what is under way, now or behind a further turn of the initiator. Each end may see it by a turn, and
    /// gives the connection up then.
    fn cut<R: Wait>(&mut self, pipe: &mut Pipe, rt: &R) {
        if self.chance.once_in(2) {
            self.turn_initiator(pipe, rt);
        }
        pipe.cut();
        if self.chance.once_in(2) {
            self.turn_initiator(pipe, rt);
            self.turn_acceptor(pipe, rt);
        }
        self.initiator.end.cut();
        self.acceptor.end.cut();
    }

    /// A connection from its beginning to its end, which is cut somewhere, or not. Answers what was wrong with how it ended.
    ///
    /// # Errors
    /// Want of memory for the pipe.
    fn connect<R: Wait>(
        &mut self,
        alloc: Global,
        is_cut: bool,
        rt: &R,
    ) -> Result<Option<&'static str>, AllocError> {
        let mut pipe = Pipe::new(alloc, ROOM)?;
        self.initiator.end.begin();
        self.acceptor.end.begin();
        if is_cut {
            let most = self.chance.below(self.plan.rounds);
            self.rounds(&mut pipe, most, rt);
            self.cut(&mut pipe, rt);
        } else {
            self.rounds(&mut pipe, ROUNDS, rt);
        }
        Ok(self.initiator.fault(is_cut).or(self.acceptor.fault(is_cut)))
    }

    /// All connections of the plan. Answers what was wrong with how the first of them ended of which something was.
    ///
    /// # Errors
    /// Want of memory for a pipe.
    pub fn connect_all<R: Wait>(
        &mut self,
        alloc: Global,
        rt: &R,
    ) -> Result<Option<&'static str>, AllocError> {
        for _ in 0..self.plan.cuts {
            let fault = self.connect(alloc, true, rt)?;
            if fault.is_some() {
                return Ok(fault);
            }
        }
        let fault = self.connect(alloc, false, rt)?;
        self.initiator.finish(rt);
        self.acceptor.finish(rt);
        Ok(fault)
    }

    /// The journals of the initiator and of the acceptor.
    pub fn close(self) -> (Disks, Disks) {
        let Session {
            plan: _,
            chance: _,
            initiator,
            acceptor,
        } = self;
        (initiator.close(), acceptor.close())
    }
}

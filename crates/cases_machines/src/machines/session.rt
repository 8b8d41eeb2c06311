//! The two ends of a session, and their connections one after another.

use crate::machines::judge::{Moment, fault};
use crate::machines::line::{Line, Passage};
use crate::machines::side::Side;
use fixp_end::{Ending, Flow, Role};
use jr_kept::Stable;
use std::alloc::{AllocError, Global};

/// How many turns each end has in a connection, at most.
const ROUNDS: u64 = 40;

/// Both ends of a session, and the bytes under way between them.
#[derive(Drop)]
pub struct Session {
    initiator: Side,
    acceptor: Side,
    /// The flow that the initiator sends.
    from_initiator: Flow,
    /// The flow that the acceptor sends.
    from_acceptor: Flow,
    to_initiator: Line,
    to_acceptor: Line,
}

impl Session {
    /// A new session, in which the initiator sends the first flow and the acceptor the second, in its first connection.
    /// `pace` is how many messages an end sends live in a turn, at most, and `versions` are those of the initiator and of the acceptor.
    pub fn new(
        alloc: Global,
        from_initiator: Flow,
        from_acceptor: Flow,
        pace: u64,
        versions: [u16; 2],
    ) -> Result<Session, AllocError> {
        let [first, second] = versions;
        Ok(Session {
            initiator: Side::new(
                alloc,
                Role::Initiator,
                from_initiator,
                from_acceptor,
                pace,
                first,
            )?,
            acceptor: Side::new(
                alloc,
                Role::Acceptor,
                from_acceptor,
                from_initiator,
                pace,
                second,
            )?,
            from_initiator,
            from_acceptor,
            to_initiator: Line::new(alloc),
            to_acceptor: Line::new(alloc),
        })
    }

    /// A connection, from its beginning to its end. Answers whether it ended by itself at both ends.
    pub fn connect(
        &mut self,
        entries: &[Stable],
        passage: &mut Passage,
    ) -> Result<bool, AllocError> {
        self.to_initiator.lose();
        self.to_acceptor.lose();
        self.initiator.begin();
        self.acceptor.begin();
        self.initiator.send(&mut self.to_acceptor)?;
        for _ in 0..ROUNDS {
            self.turns(entries, passage)?;
            if passage.is_cut() || self.has_ended() {
                break;
            }
        }
        let ended = self.has_ended();
        self.initiator.cut();
        self.acceptor.cut();
        Ok(ended)
    }

    /// A turn of each end, as far as the connection is not cut.
    fn turns(&mut self, entries: &[Stable], passage: &mut Passage) -> Result<(), AllocError> {
        if !passage.is_cut() {
            self.acceptor.turn(
                entries,
                &mut self.to_acceptor,
                &mut self.to_initiator,
                passage,
            )?;
        }
        if !passage.is_cut() {
            self.initiator.turn(
                entries,
                &mut self.to_initiator,
                &mut self.to_acceptor,
                passage,
            )?;
        }
        Ok(())
    }

    /// Whether the connection has ended at both ends.
    fn has_ended(&self) -> bool {
        self.initiator.ending().is_some() && self.acceptor.ending().is_some()
    }

    /// What is wrong after a connection, if anything is.
    pub fn fault(&self, entries: &[Stable], moment: Moment) -> Option<&'static str> {
        for side in [&self.initiator, &self.acceptor] {
            if let Some(what) = ending_fault(side.ending(), moment) {
                return Some(what);
            }
        }
        match fault(self.from_acceptor, self.initiator.inbox(), entries, moment) {
            Some(what) => Some(what),
            None => fault(self.from_initiator, self.acceptor.inbox(), entries, moment),
        }
    }
}

/// What is wrong with the way in which a connection ended, if anything is.
fn ending_fault(ending: Option<Ending>, moment: Moment) -> Option<&'static str> {
    match (ending, moment) {
        (Some(Ending::Finished), _) | (Some(Ending::LinkEnded), Moment::Cut) => None,
        (Some(Ending::Violation(_)), _) => Some("a violation"),
        _ => Some("another ending"),
    }
}

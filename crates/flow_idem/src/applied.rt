//! The receiver of an idempotent flow: the next number, what was applied, and what is still to be told.

ghost use Rattle.std.specs.Prelude.{◌≡◌, ◌+◌, ◌^◌, ◌<◌, ◌≤◌, ◌==◌, length, slice_get, Some, IfOk, OnOk, OnErr};
ghost use Rattle.std.specs.List.{list_any};
ghost use Rattle.flow_idem.specs.Runs.{runs_of};
ghost use Rattle.flow_idem.specs.Applying.{announcements_reserved, fresh, jump_of, jumped, applied_next, forgotten};

use crate::runs::Runs;
use crate::step::jump_of;
use fixp_msgs::Range;
use std::alloc::{AllocError, Global};
use std::marker::Model;

/// For how many announcements room is made at once.
const RESERVED: u16 = 256;

/// The receiving end of an idempotent flow (FIXP 1.1, idempotent flow type).
#[derive(Drop)]
pub struct Applied {
    all: Runs,
    untold: Runs,
    room: u16,
}

impl Model for Applied {
    ghost use Rattle.std.specs.Prelude.{◌≡◌, ◌≤◌};
    ghost use Rattle.flow_idem.specs.Applying.{Applying};

    ghost Value = { Applying };

    ghost view = { λ a. record { next = a.all.end; applied = a.all.numbers; untold = a.untold.numbers; room = a.room } };

    ghost invariant = { λ a. (a.untold.end ≡ a.all.end) × (a.room ≤ a.all.spare) × (a.room ≤ a.untold.spare) };
}

impl Applied {
    /// A receiver that applied nothing, where the inbox waits for the number `next`. It has room for 256 announcements.
    ///
    /// # Errors
    /// Want of memory.
    pub fn new(alloc: Global, next: u64) -> Result<Applied, AllocError>
        ensures { IfOk result (λ a. a ≡ fresh next) }
    {
        Ok(Applied {
            all: Runs::new(alloc, next, usize::from(RESERVED))?,
            untold: Runs::new(alloc, next, usize::from(RESERVED))?,
            room: RESERVED,
        })
    }

    /// Makes room for 256 announcements and for any number of messages. No other call takes memory.
    ///
    /// # Errors
    /// Want of memory. Nothing has changed then.
    pub fn reserve(&mut self) -> Result<(), AllocError>
        ensures ok { OnOk result (self.new ≡ record self.old { room = announcements_reserved }) }
        ensures err { OnErr result (self.new ≡ self.old) }
    {
        self.all.reserve(usize::from(RESERVED))?;
        self.untold.reserve(usize::from(RESERVED))?;
        self.room = RESERVED;
        Ok(())
    }

    /// The number of the next message.
    pub fn next(&self) -> u64
        ensures { result ≡ self.now.next }
    {
        self.all.end()
    }

    /// For how many announcements there is room.
    pub fn room(&self) -> u16
        ensures { result ≡ self.now.room }
    {
        self.room
    }

    /// The next number is announced, by an Establish, an EstablishmentAck or a Sequence. It gives the numbers jumped over,
    /// which are not applied, if there are any.
    pub fn announce(&mut self, next_seq: u64) -> Option<Range>
        requires room { 1 ≤ self.old.room }
        requires forward { self.old.next ≤ next_seq }
        ensures jump { result ≡ jump_of self.old.next next_seq }
        ensures after { self.new ≡ jumped self.old next_seq }
    {
        let jump = jump_of(self.next(), next_seq);
        self.all.jump(next_seq);
        self.untold.jump(next_seq);
        self.room -= 1;
        jump
    }

    /// Takes an application message, which is applied under the number given.
    pub fn on_app(&mut self) -> u64
        requires { self.old.next + 1 < 2 ^ 64 }
        ensures number { result ≡ self.old.next }
        ensures after { self.new ≡ applied_next self.old }
    {
        let number = self.next();
        self.all.go_on();
        self.untold.go_on();
        number
    }

    /// Whether a message was applied under this number since the receiver was made.
    pub fn is_applied(&self, number: u64) -> bool
        ensures { result ≡ list_any (λ n. n == number) self.now.applied }
    {
        self.all.has(number)
    }

    /// How many runs of consecutive numbers were applied since the runs were forgotten.
    pub fn run_count(&self) -> usize
        ensures { result ≡ length (runs_of self.now.untold) }
    {
        self.untold.count()
    }

    /// The run at a place, from 0, in the order of their numbers. Each is told by one Applied (FIXP 1.1, Applied).
    pub fn run(&self, place: usize) -> Range
        requires { place < length (runs_of self.now.untold) }
        ensures { slice_get (runs_of self.now.untold) place ≡ Some result }
    {
        self.untold.run(place)
    }

    /// Forgets the runs: they are told, or a connection begins, on which nothing is applied yet. The next number stays, and
    /// what was applied.
    pub fn forget_runs(&mut self)
        ensures { self.new ≡ forgotten self.old }
    {
        self.untold.clear();
    }
}
